//! What holds of the conversion of each document that was read, where rows may merge: each law is the contract of a function that does nothing.
//! The statements stand in specs/.
#![tactic(auto)]

pub mod examples;
pub mod laws;
