// Checks 3 to 12 of a question.
#![tactic(auto)]

pub mod check;
