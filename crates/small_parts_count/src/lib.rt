// Counting the ordered pairs of small parts by their verdict.
#![tactic(auto)]

pub mod count;
pub mod tally;
