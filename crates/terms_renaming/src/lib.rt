// Free names, tables of names and renaming.
#![tactic(auto)]

pub mod free;
pub mod rename;
pub mod tables;
