//! What is read as a type is a typed value of the type.
#![tactic(auto)]

pub mod examples;
pub mod laws;
