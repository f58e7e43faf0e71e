// The judge.
#![tactic(auto)]

pub mod judge;
