// The label of a candidate by its number.
#![tactic(auto)]

pub mod label;
