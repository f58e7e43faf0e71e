// A third part beside both sides.
#![tactic(auto)]

pub mod beside;
