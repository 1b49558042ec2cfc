//! A space of entries with ids: equal entries share one, and an item is told from others by its name.
#![tactic(auto)]

mod calls;
mod iter;
mod key;
pub mod laws;
mod leaving;
mod space;

pub use entry_types::{
    Content, FieldEntry, IntName, ItemEntry, ItemShape, STD_NUM_NONZERO_PREFIX, State, TypeEntry,
    TypeId, VariantEntry,
};
pub use iter::TypeEntries;
pub use space::EntrySpace;
