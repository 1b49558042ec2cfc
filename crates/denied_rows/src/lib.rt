//! The rows of `not`.
#![tactic(auto)]

mod denied;

pub use denied::not_finding;
