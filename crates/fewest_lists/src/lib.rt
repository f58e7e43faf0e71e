// Lists of pairs: which may be chosen, the question under an enlarged apart list, and the first list that gives "same".
#![tactic(auto)]

pub mod best;
pub mod lists;
pub mod names;
