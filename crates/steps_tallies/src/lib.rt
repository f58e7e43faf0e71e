// How many candidates a term has.
#![tactic(auto)]

pub mod bodies;
pub mod front;
pub mod tally;
