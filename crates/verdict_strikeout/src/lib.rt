// Strike-out, block by block, until a pass strikes out none.
#![tactic(auto)]

pub mod strike;
