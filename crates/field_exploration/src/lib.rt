// The field is explored.
#![tactic(auto)]

pub mod explore;
