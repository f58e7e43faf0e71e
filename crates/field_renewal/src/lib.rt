// A kept list made that of another new name.
#![tactic(auto)]

pub mod renewing;
