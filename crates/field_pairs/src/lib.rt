// Pairs of names, and what a listed step asks of them.
#![tactic(auto)]

pub mod entries;
pub mod names;
pub mod pairs;
