//! Merges and subtractions as a caller asks for them: notes with their places, and schemas whose walks carry no marks.
#![tactic(auto)]

mod calls;
mod faults;
mod likeness;
mod ordering;
mod telling;
mod told;
mod unmark;

pub use calls::{LEVELS, merge_all, subtract, try_merge_with_subschemas};
pub use likeness::Roughly;
pub use told::{Merged, PlacedNote};
