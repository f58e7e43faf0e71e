// Situations and the field: definitions and theorems.
#![tactic(auto)]
