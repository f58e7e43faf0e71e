// Restrictions that bind nothing go from the bytes of a term (request 2026-04).
#![tactic(auto)]

pub mod tidied;
pub mod tidy;
