//! Seals: what turns a body into a record and back. One trait with its laws, and the kinds of seal.
#![tactic(auto)]

pub mod bench;
pub mod fault;
pub mod scheme;
pub mod seal;
pub mod street;
#[cfg(test)]
mod tests;
