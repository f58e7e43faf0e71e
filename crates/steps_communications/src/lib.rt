// Communications between rows.
#![tactic(auto)]

pub mod meet;
