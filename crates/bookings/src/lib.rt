//! Two days of bookings at a dock, the calls of a day as a list, and how calls are run under keys.
#![tactic(auto)]

pub mod calls;
pub mod days;
pub mod keyed;
#[cfg(test)]
mod tests;
