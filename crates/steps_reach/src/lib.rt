// What opening a call reaches.
#![tactic(auto)]

pub mod reach;
pub mod table;
