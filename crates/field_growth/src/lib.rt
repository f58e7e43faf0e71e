// A step's answers are added to the situations known.
#![tactic(auto)]

pub mod growth;
