//! The rows of texts, of listed values and of booleans.
#![tactic(auto)]

mod listed;
mod texts;

pub use listed::{boolean_finding, constant_finding, enumerated, less_null, listed_alone};
pub use texts::{asking_patterns, given_format, string_finding};
