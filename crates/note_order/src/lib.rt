//! Notes of conversion in their order, each once.
#![tactic(auto)]

mod note;
mod sorted;

pub use note::{NoteName, PlacedNote};
pub use sorted::ordered_notes;
