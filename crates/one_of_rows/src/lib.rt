//! The rows of `oneOf`.
#![tactic(auto)]

mod one_of;

pub use one_of::{is_exclusive, one_of_finding, untagged_row};
