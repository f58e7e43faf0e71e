// Reading bytes: the shape of a term, the fields of a question, lent areas.
#![tactic(auto)]

pub mod answer;
pub mod bytes;
pub mod frame;
pub mod limits;
pub mod shape;
pub mod tags;
