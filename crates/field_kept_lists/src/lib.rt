// Lists of steps that are kept.
#![tactic(auto)]

pub mod kept_lists;
pub mod list_area;
