//! What the calls of merging tell: laws over the definitions alone.
#![tactic(auto)]

pub mod examples;
pub mod laws;
