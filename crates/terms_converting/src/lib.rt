// Questions from one edition to the other.
#![tactic(auto)]

pub mod question;
pub mod term;
