//! Keywords that a schema document has and that are passed over.
#![tactic(auto)]

pub mod examples;
mod lines;

pub use lines::passed_text;
