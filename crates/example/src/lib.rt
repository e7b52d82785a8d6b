//! The example that the programs share: bookings, and keys that anyone may know.
#![tactic(auto)]

pub mod booking;
pub mod keys;
