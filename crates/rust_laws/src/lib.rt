//! What is known of the pages of `rust`: each law is the contract of a function that does nothing.
#![tactic(auto)]

mod laws;

pub use laws::{docs_stand_at_their_items, pages_keep_items};
