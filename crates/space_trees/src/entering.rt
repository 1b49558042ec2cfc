//! Entries with their ids, and items that are opened.
ghost use Rattle.std.specs.Prelude.{◌≡◌, IfOk, option_map};
ghost use Rattle.entry_types.specs.View.{id_view, entry_view};
ghost use Rattle.entry_space.specs.Seen.{seen};
ghost use Rattle.space_trees.specs.Placed.{put, opened, opened_at};

use entry_space::{EntrySpace, ItemEntry, ItemShape, TypeEntry, TypeId};
use std::alloc::{AllocError, Global};

/// The id of the entry, which comes to the end of the space where no entry of its key is there.
#[tactic(auto, using(crate::proofs::Placing::put_is))]
pub(crate) fn put(space: &mut EntrySpace, entry: TypeEntry) -> Result<TypeId, AllocError>
    ensures { IfOk result (λ i. put (entry_view entry) (seen space.old) ≡ (seen space.new, id_view i)) }
{
    let id = space.enter(entry)?;
    Ok(id)
}

/// An item of that name that holds itself alone, until it is filled.
#[tactic(auto, using(crate::proofs::Placing::opened_by))]
pub(crate) fn open_item(
    space: &mut EntrySpace,
    alloc: Global,
    name: &str,
) -> Result<TypeId, AllocError>
    ensures { IfOk result (λ i. opened name.now (seen space.old) ≡ (seen space.new, id_view i)) }
{
    let name = String::from_str(alloc, name)?;
    let shape = ItemShape::Newtype {
        inner: TypeId(0),
        rule: None,
    };
    let id = put(space, TypeEntry::Item(ItemEntry { name, shape }))?;
    space.fill(
        id,
        ItemShape::Newtype {
            inner: id,
            rule: None,
        },
    );
    Ok(id)
}

/// The id at which the item was opened before, or else that of an item which is opened.
pub(crate) fn open_at(
    space: &mut EntrySpace,
    alloc: Global,
    at: Option<TypeId>,
    name: &str,
) -> Result<TypeId, AllocError>
    ensures { IfOk result (λ i. opened_at (option_map id_view at) name.now (seen space.old) ≡ (seen space.new, id_view i)) }
{
    match at {
        Some(id) => Ok(id),
        None => {
            let id = open_item(space, alloc, name)?;
            Ok(id)
        }
    }
}
