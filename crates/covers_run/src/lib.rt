//! The word `covers`: whether the items of a new schema read what those of an old one write.
#![tactic(auto)]

mod comparing;
mod head;
pub mod laws;
mod nodes;
mod page;

pub use comparing::Covers;
