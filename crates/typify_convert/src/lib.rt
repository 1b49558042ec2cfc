//! A space of types that grows call by call: the entries with their ids, and in the end the items that stand for them.
#![tactic(auto)]

mod collect;
mod finish;
mod gather;
mod keeping;
pub mod laws;
mod plan;
mod refusing;
mod schema;
mod space;
mod target;

pub use convert_document::{Emitted, Note, NoteKind, Way};
pub use entry_space::{
    Content, FieldEntry, IntName, ItemEntry, ItemShape, STD_NUM_NONZERO_PREFIX, State, TypeEntries,
    TypeEntry, TypeId, VariantEntry,
};
pub use space::TypeSpace;
