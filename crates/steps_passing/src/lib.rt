// The names that a candidate passes, and how it stands in its term.
#![tactic(auto)]

pub mod names;
pub mod pass;
