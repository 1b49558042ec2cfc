//! How many schemas a document has.
#![tactic(auto)]

mod document;
mod nodes;

pub use document::nodes_of;
