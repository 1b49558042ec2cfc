//! The calls of a space.
ghost use Rattle.std.specs.Prelude.{◌≡◌, [], true, IfOk, OnOk, OnErr, option_map, None};
ghost use Rattle.std.specs.List.{IsDistinct};
ghost use Rattle.indexmap.specs.IndexMap.{get};
ghost use Rattle.entry_types.specs.View.{id_view, entry_view, shape_view};
ghost use Rattle.entry_defs.specs.Space.{entry_at};
ghost use Rattle.entry_space.specs.Keys.{key_view, bare, same_key, has_key};
ghost use Rattle.entry_space.specs.Entered.{entered, shaped, filled};
ghost use Rattle.entry_space.specs.Seen.{seen, entries_left};

use crate::iter::TypeEntries;
use crate::key::{Key, key_of};
use crate::space::EntrySpace;
use entry_types::{ItemShape, TypeEntry, TypeId};
use indexmap::IndexMap;
use std::alloc::{AllocError, Global};

impl EntrySpace {
    /// The empty space. It takes no memory.
    pub fn new(alloc: Global) -> EntrySpace
        ensures { seen result ≡ [] }
    {
        EntrySpace {
            alloc,
            entries: IndexMap::new(alloc),
        }
    }

    /// The id of the entry, which comes to the end of the space where no entry of its key is there. An item whose name is
    /// there has the id of that item, which stays as it is. Fails only for want of memory, or of an id: there are
    /// 4,294,967,295 of them.
    pub fn enter(&mut self, entry: TypeEntry) -> Result<TypeId, AllocError>
        ensures entered { OnOk result (seen self.new ≡ entered (entry_view entry) (seen self.old)) }
        ensures stands { IfOk result (λ i. has_key (entry_view entry) (entry_at (seen self.new) (id_view i)) ≡ true) }
        ensures apart { OnOk result (IsDistinct same_key (seen self.new)) }
        ensures unchanged { OnErr result (seen self.new ≡ seen self.old) }
    {
        let key = key_of(self.alloc, &entry)?;
        match self.entries.get_index_of(&key) {
            Some(index) => Ok(TypeId(index as u32)),
            None => self.append(key, entry),
        }
    }

    // An entry whose key is not there, to the end.
    fn append(&mut self, key: Key, entry: TypeEntry) -> Result<TypeId, AllocError>
        requires keyed { key_view key ≡ bare (entry_view entry) }
        requires absent { get ⟦<Key as PartialEq>⟧.eq self.old.entries key ≡ None }
        ensures entered { OnOk result (seen self.new ≡ entered (entry_view entry) (seen self.old)) }
        ensures stands { IfOk result (λ i. has_key (entry_view entry) (entry_at (seen self.new) (id_view i)) ≡ true) }
        ensures apart { OnOk result (IsDistinct same_key (seen self.new)) }
        ensures unchanged { OnErr result (seen self.new ≡ seen self.old) }
    {
        let index = self.entries.len();
        if index >= 4_294_967_295 {
            return Err(AllocError);
        }
        self.entries.insert(key, entry)?;
        Ok(TypeId(index as u32))
    }

    /// Makes that shape of the item at the id; where no item is there, nothing. It takes no memory.
    pub fn fill(&mut self, id: TypeId, shape: ItemShape)
        ensures { seen self.new ≡ filled (id_view id) (shape_view shape) (seen self.old) }
    {
        match self.entries.get_index_mut(id.0 as usize) {
            Some(entry) => set_shape(entry, shape),
            None => {}
        }
    }

    /// The entry of an id, or nothing exactly where no entry has it. It takes no memory.
    pub fn get(&self, id: TypeId) -> Option<&TypeEntry>
        ensures { option_map (λ e. entry_view e.now) result ≡ entry_at (seen self.now) (id_view id) }
    {
        match self.entries.get_index(id.0 as usize) {
            Some(pair) => Some(pair.1),
            None => None,
        }
    }

    /// The entries in the order of their ids. It takes no memory.
    pub fn iter(&self) -> TypeEntries<'_>
        ensures entries { entries_left result ≡ seen self.now }
        ensures apart { IsDistinct same_key (seen self.now) }
    {
        TypeEntries::new(self.entries.iter())
    }
}

// An item with that shape; another entry stays as it is.
fn set_shape(entry: &mut TypeEntry, shape: ItemShape)
    ensures { entry_view entry.new ≡ shaped (shape_view shape) (entry_view entry.old) }
{
    if let TypeEntry::Item(item) = entry {
        item.shape = shape;
    }
}
