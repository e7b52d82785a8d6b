//! The hiding store: its makings and its calls.
#![tactic(auto)]

pub mod calls;
pub mod makings;
pub mod state;
