// A step put into the list.
#![tactic(auto)]

pub mod candidate;
pub mod put;
pub mod result;
