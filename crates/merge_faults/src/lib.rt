//! Faults of merges as those of documents.
#![tactic(auto)]

mod faults;

pub use faults::{depth_fault, unsupported_kind};
