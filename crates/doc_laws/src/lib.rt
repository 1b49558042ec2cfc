//! What is known of docs of items: each law is the contract of a function that does nothing.
#![tactic(auto)]

mod laws;

pub use laws::{docs_have_items_names, item_names_differ};
