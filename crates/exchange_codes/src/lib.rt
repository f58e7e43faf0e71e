// The numbers that the operations answer.
#![tactic(auto)]

pub mod codes;
