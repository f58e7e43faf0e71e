// The walk of a part.
#![tactic(auto)]

pub mod walk;
