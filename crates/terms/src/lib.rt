// The bytes of terms and questions, the checks, merge and beside: definitions and theorems.
#![tactic(auto)]
