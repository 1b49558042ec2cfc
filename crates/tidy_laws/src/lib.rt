//! What is known of tidied texts: each law is the contract of a function that does nothing.
#![tactic(auto)]

pub mod examples;
mod laws;

pub use laws::tidy_keeps_tokens;
