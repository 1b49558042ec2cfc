//! Documents converted: the items that stand for a schema document, the table of what their attributes don't say, the type of
//! the root, and the notes.
#![tactic(auto)]

mod checking;
mod conversion;
mod nesting;
mod note;
mod noting;

pub use conversion::{Emitted, converted};
pub use convert_trees::{
    Kept, Merge, PlacedNote, Unread, definition_targets, merges_at, merges_of, nothing_kept,
    root_name, root_tree, tree_at,
};
pub use nesting::levels;
pub use note::{Note, NoteKind, Way};
pub use noting::notes_of;
