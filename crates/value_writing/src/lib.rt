//! Typed values written as JSON values, by their types.
#![tactic(auto)]

mod copies;
mod fields;
mod members;
mod shape;
mod wrap;
mod writing;

pub use members::put_member;
pub use writing::write;
