//! The store's tables: the position map and the waiting list.
#![tactic(auto)]

pub mod positions;
pub mod waiting;
