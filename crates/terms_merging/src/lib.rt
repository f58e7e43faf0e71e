// Merge of two names.
#![tactic(auto)]

pub mod merge;
