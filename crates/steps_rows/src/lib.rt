// The rows of a component.
#![tactic(auto)]

pub mod rows;
