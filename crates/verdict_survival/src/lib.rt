// Whether a situation survives.
#![tactic(auto)]

pub mod survive;
