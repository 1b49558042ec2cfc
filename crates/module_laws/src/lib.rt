//! What is known of the items in a module: each law is the contract of a function that does nothing.
#![tactic(auto)]

pub mod examples;
mod laws;

pub use laws::items_keep_tokens;
