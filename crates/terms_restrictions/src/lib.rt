// Restrictions of a term: whether it has one, whether one binds nothing, whether a byte occurs (request 2026-04).
#![tactic(auto)]

pub mod occurs;
pub mod restriction;
pub mod unused;
