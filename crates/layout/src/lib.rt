//! Numbers that are not taken for one another, and the byte layout of bodies and records.
#![tactic(auto)]

pub mod body;
pub mod names;
mod numbers;
pub mod records;
pub mod values;
