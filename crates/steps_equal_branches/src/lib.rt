// Branches that have the same steps.
#![tactic(auto)]

pub mod same;
