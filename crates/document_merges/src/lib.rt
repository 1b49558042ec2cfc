//! What the rows of a document merge, in the order of conversion, so that what is converted afterwards can borrow from it.
#![tactic(auto)]

mod document;
pub mod examples;
mod gather;
mod listed;
mod merge;
mod scope;

pub use document::{definition_start, merges_at, merges_of, root_start};
pub use listed::{Listed, listed_parts};
pub use merge::{Merge, MergeEnd};
pub use row_table::finding;
