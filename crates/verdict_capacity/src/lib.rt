// Checks 1 and 2.
#![tactic(auto)]

pub mod capacity;
