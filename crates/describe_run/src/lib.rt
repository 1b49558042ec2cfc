//! The word `describe`: what the items of a schema take, as a schema.
#![tactic(auto)]

mod describing;
pub mod laws;

pub use describing::Describing;
