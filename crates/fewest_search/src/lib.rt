// The search for the fewest pairs to hold apart.
#![tactic(auto)]

pub mod apart;
pub mod search;
