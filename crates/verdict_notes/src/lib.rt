// What is noted in a slot: the situations that its own relies on.
#![tactic(auto)]

pub mod relied;
