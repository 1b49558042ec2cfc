//! What all merging code is made of: notes, what ends a merge, and how a step's notes and answer are its definition's outcome.
#![tactic(auto)]

mod fault;
mod notes;

pub use fault::{MergeFault, UnsupportedMerge};
pub use notes::{
    MergeKind, MergeNote, Way, add_notes, add_turned, has_way, never_unless, note, note_both_ways,
    note_if,
};
