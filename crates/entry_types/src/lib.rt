//! The entries that schemas are converted to, by the ids of their parts.
#![tactic(auto)]

mod entry;
mod item;

pub use entry::{IntName, STD_NUM_NONZERO_PREFIX, TypeEntry, TypeId};
pub use item::{Content, FieldEntry, ItemEntry, ItemShape, State, VariantEntry};
