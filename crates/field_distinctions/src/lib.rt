// The apart pairs after a step.
#![tactic(auto)]

pub mod update;
