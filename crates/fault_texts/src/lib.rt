//! What is said of a fault: what it carries, the rule, and what to change.
#![tactic(auto)]

mod explained;
mod sentences;

pub use explained::{fault_explained, push_line, push_quoted, push_whole};
pub use sentences::{change_of, rule_of};
