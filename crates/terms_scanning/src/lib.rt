// The grammar walk over a term's bytes: checks 7, 8, 16 and 9, and what checks 10 and 11 ask.
#![tactic(auto)]

pub mod scan;
