// The verdict, the promises of the operations and the three demands: definitions and theorems.
#![tactic(auto)]
