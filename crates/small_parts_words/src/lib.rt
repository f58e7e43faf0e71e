// The parts of the census, found among the words of their length.
#![tactic(auto)]

pub mod parts;
pub mod question;
pub mod words;
