//! Examples where a native type or a rule keeps one from being told: a likely value is made, and is an answer only where the
//! module reads it by a judge of texts.
#![tactic(auto)]

mod asking;
mod fixed;
pub mod laws;
mod listed;
mod making;
mod ruled;

pub use asking::example_by;
pub use listed::listed_texts;
