// A situation is taken up: both sides are listed.
#![tactic(auto)]

pub mod taking;
