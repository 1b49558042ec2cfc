//! What is written of what was read is read again as what it was, where untagged variants have disjoint kinds.
#![tactic(auto)]

pub mod examples;
pub mod laws;
