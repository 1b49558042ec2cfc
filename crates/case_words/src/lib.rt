//! Words that programs of cases print: faults, integer types and formats.
#![tactic(auto)]

mod faults;
mod words;

pub use faults::{fault_text, push_fault};
pub use words::{format_word, int_word};
