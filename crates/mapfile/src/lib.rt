//! The map file: what a store saves, and what a store is resumed from.
#![tactic(auto)]

pub mod encode;
pub mod entries;
pub mod file;
