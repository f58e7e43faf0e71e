// What is written of each side of a term.
#![tactic(auto)]

pub mod beside;
pub mod pieces;
pub mod plan;
