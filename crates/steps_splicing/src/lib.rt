// Results put together in place.
#![tactic(auto)]

pub mod locate;
pub mod merged;
pub mod splice;
