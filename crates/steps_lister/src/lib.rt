// The list of a part, and the listing operation.
#![tactic(auto)]

pub mod list;
pub mod operation;
