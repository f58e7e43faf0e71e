// Whether the situations that are left answer each demand.
#![tactic(auto)]

pub mod answered;
pub mod manner;
