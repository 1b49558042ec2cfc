//! The word `explain`: whether a schema compiles, what its fault or its notes mean, what to change, and what is passed over.
#![tactic(auto)]

mod explaining;
mod notes;

pub use explaining::Explaining;
pub use notes::note_sentence;
