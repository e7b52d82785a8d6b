//! The ChaCha20 block function and SipHash-2-4, each equal to its definition in specs/.
#![tactic(auto)]

pub mod chacha20;
pub mod known;
pub mod siphash;
