// The result of a candidate by its number.
#![tactic(auto)]

pub mod result;
