// The start and the successors of a situation.
#![tactic(auto)]

pub mod results;
pub mod start;
