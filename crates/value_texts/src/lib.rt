//! The JSON text of a value, indented as people indent.
#![tactic(auto)]

pub mod laws;
mod text;

pub use text::value_text;
