//! What entries lead on to: to an option, or to another entry through references and transparent newtypes.
ghost use Rattle.std.specs.Prelude.{◌≡◌, ◌&&◌, not, Some, IfOk};
ghost use Rattle.entry_types.specs.View.{id_view, shape_view, entry_view};
ghost use Rattle.space_defs.specs.Leads.{is_phantom_use, phantom_entry, ends_in_phantom_at, is_transparent_at, next_of_item, next_of, nexts_from};
ghost use Rattle.emit_types.specs.Asked.{space_view, same_part};

use crate::lookup::{entry_of, item_name, lie_together};
use entry_types::{ItemShape, TypeEntry, TypeId};
use std::alloc::{AllocError, Global};
use use_graph::Next;

// Whether an item uses another as `PhantomData`, with no box round it.
fn uses_phantom(entries: &[TypeEntry], parts: &[u32], owner: usize, used: usize) -> bool
    ensures { result ≡ is_phantom_use (space_view entries.now) (same_part parts.now) owner used }
{
    item_name(entries, used) == "PhantomData" && !lie_together(parts, owner, used)
}

// The same of what an item holds: the id of that, and the entry there.
fn entry_ends_in_phantom(
    entries: &[TypeEntry],
    parts: &[u32],
    owner: usize,
    inner: usize,
    entry: &TypeEntry,
) -> bool
    ensures { result ≡ phantom_entry (space_view entries.now) (same_part parts.now) owner inner (Some (entry_view entry.now)) }
{
    match entry {
        TypeEntry::Reference(target) => uses_phantom(entries, parts, owner, target.0 as usize),
        TypeEntry::Item(_) => uses_phantom(entries, parts, owner, inner),
        _ => false,
    }
}

/// Whether the last name of the type that an item holds is `PhantomData`.
pub fn ends_in_phantom(entries: &[TypeEntry], parts: &[u32], owner: usize, inner: TypeId) -> bool
    ensures { result ≡ ends_in_phantom_at (space_view entries.now) (same_part parts.now) owner inner.0 }
{
    match entry_of(entries, inner.0 as usize) {
        Some(entry) => entry_ends_in_phantom(entries, parts, owner, inner.0 as usize, entry),
        None => false,
    }
}

// What an item leads on to.
fn next_of_shape(entries: &[TypeEntry], parts: &[u32], id: usize, shape: &ItemShape) -> Next
    ensures { result ≡ next_of_item (space_view entries.now) (same_part parts.now) id (shape_view shape.now) }
{
    match shape {
        ItemShape::Newtype { inner, rule: None } => {
            if ends_in_phantom(entries, parts, id, *inner) {
                Next::No
            } else {
                Next::To(inner.0)
            }
        }
        ItemShape::Newtype { .. } | ItemShape::Struct { .. } | ItemShape::Enum { .. } => Next::No,
    }
}

// What an entry leads on to.
fn next_of(entries: &[TypeEntry], parts: &[u32], id: usize, entry: &TypeEntry) -> Next
    ensures { result ≡ next_of (space_view entries.now) (same_part parts.now) id (entry_view entry.now) }
{
    match entry {
        TypeEntry::Option(_) => Next::Yes,
        TypeEntry::Reference(target) => Next::To(target.0),
        TypeEntry::Item(item) => next_of_shape(entries, parts, id, &item.shape),
        _ => Next::No,
    }
}

/// What each entry leads on to, in order.
#[tactic(auto, using(crate::proofs::Pieces::assoc))]
pub fn nexts(alloc: Global, entries: &[TypeEntry], parts: &[u32]) -> Result<Vec<Next>, AllocError>
    ensures { IfOk result (λ next. next.items ≡ nexts_from (space_view entries.now) (same_part parts.now) 0 (space_view entries.now)) }
{
    let mut next = Vec::with_capacity(alloc, entries.len())?;
    for (id, entry) in entries.iter().enumerate() {
        next.push(next_of(entries, parts, id, entry))?;
    }
    Ok(next)
}
