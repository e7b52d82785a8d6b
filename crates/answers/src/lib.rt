//! What a store answers: denials with all that they hold, and what a beat did.
#![tactic(auto)]

pub mod beat;
pub mod denials;
pub mod fault;
