// Conditions and labels, and the rules of Table 4.1 on them.
#![tactic(auto)]

pub mod action;
pub mod condition;
pub mod rules;
