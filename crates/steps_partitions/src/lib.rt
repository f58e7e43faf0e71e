// The conditions on the names of a call, numbered.
#![tactic(auto)]

pub mod partition;
