//! What is known of emitted items in a module: each law is the contract of a function that does nothing.
#![tactic(auto)]

mod laws;

pub use laws::{emitted_items_keep_tokens, items_of_programs_keep_tokens};
