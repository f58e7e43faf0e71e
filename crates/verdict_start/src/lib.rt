// Whether the start survives strike-out.
#![tactic(auto)]

pub mod passes;
