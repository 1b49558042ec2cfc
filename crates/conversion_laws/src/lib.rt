//! What conversion says of values where rows may merge: laws over the definitions alone.
#![tactic(auto)]

pub mod examples;
pub mod laws;
