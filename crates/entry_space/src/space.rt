//! The space of entries.
ghost use Rattle.std.specs.Prelude.{◌≡◌, ◌<◌, length, true};
ghost use Rattle.entry_space.specs.Keys.{are_keyed};

use crate::key::Key;
use entry_types::TypeEntry;
use indexmap::IndexMap;
use std::alloc::Global;

/// Entries by their ids, in the order in which they were entered. No two have one key: items differ by their names, other
/// entries by what they are.
#[derive(Drop)]
pub struct EntrySpace {
    pub(crate) alloc: Global,
    pub(crate) entries: IndexMap<Key, TypeEntry>,
    ghost keyed: { are_keyed entries.entries ≡ true },
    ghost few: { length entries.entries < 4294967296 },
}
