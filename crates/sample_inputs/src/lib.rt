//! The sample of a number: a large document that is plain, and values of it.
#![tactic(auto)]

mod document;
mod forms;
pub mod laws;
mod values;

pub use document::sample_schema;
pub use values::sample_values;
