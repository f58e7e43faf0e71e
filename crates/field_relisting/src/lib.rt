// A side is listed anew.
#![tactic(auto)]

pub mod relisting;
