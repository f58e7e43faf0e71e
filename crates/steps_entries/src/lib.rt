// The bytes of listed steps, their order and their insertion.
#![tactic(auto)]

pub mod arrange;
pub mod limits;
pub mod listed;
