//! What a space emits, as serde's derives read it.
#![tactic(auto)]

pub mod laws;
