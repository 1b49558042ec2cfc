//! Merges and subtractions of schemas by walks.
#![tactic(auto)]

mod apart;
mod calls;
mod cycle;
mod how;
mod outside;

pub use calls::{join_schemas, less_schemas, merge_schemas, with_subschemas};
pub use merge_steps::{Budget, size_of};
