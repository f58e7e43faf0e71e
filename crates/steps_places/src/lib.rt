// The places of a call: the calls that opening it reaches, each with the condition under which it is reached.
#![tactic(auto)]

pub mod bits;
pub mod numbers;
pub mod places;
pub mod walk;
