// The bytes of a situation, and the chains that find it.
#![tactic(auto)]

pub mod chains;
pub mod find;
pub mod notes;
pub mod slot;
pub mod slots;
