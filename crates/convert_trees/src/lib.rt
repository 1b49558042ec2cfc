//! A schema document converted: its table of trees with the notes and the first stated value that isn't read, or the first fault.
#![tactic(auto)]

mod convert;
mod defaults;
pub mod examples;
mod faults;
mod keeping;
mod listed;
mod names;
mod notes;
mod own;
mod scope;
mod table;
mod unread;

pub use document_merges::{Merge, merges_at, merges_of};
pub use keeping::{Kept, Unread, Values};
pub use names::root_name;
pub use note_order::PlacedNote;
pub use table::{Converted, definition_targets, nothing_kept, root_tree, table_of, tree_at};
