//! Entries and parts by ids.
ghost use Rattle.std.specs.Prelude.{◌≡◌, option_map, Some, slice_index};
ghost use Rattle.entry_defs.specs.Space.{entry_at};
ghost use Rattle.entry_types.specs.View.{entry_view};
ghost use Rattle.space_defs.specs.Items.{name_of, name_at};
ghost use Rattle.emit_types.specs.Asked.{space_view, same_part, boxed_in, leads_by};

use entry_types::{TypeEntry, TypeId};

/// The entry at an id. None where the space has no such id.
#[tactic(auto, using(crate::proofs::Found::found))]
pub fn entry_of(entries: &[TypeEntry], id: usize) -> Option<&TypeEntry>
    ensures { option_map (λ e. entry_view e.now) result ≡ entry_at (space_view entries.now) id }
{
    entries.get(id)
}

// The name of what is an item.
fn name_of_entry(entry: &TypeEntry) -> &str
    ensures { result.now ≡ name_of (Some (entry_view entry.now)) }
{
    match entry {
        TypeEntry::Item(item) => &item.name,
        _ => "",
    }
}

/// The name of the item at an id.
pub(crate) fn item_name(entries: &[TypeEntry], id: usize) -> &str
    ensures { result.now ≡ name_at (space_view entries.now) id }
{
    match entry_of(entries, id) {
        Some(entry) => name_of_entry(entry),
        None => "",
    }
}

/// Whether two ids lie in one part.
pub(crate) fn lie_together(parts: &[u32], owner: usize, used: usize) -> bool
    ensures { result ≡ same_part parts.now owner used }
{
    used < parts.len() && part_of(parts, owner) == part_of(parts, used)
}

fn part_of(parts: &[u32], id: usize) -> u32
    ensures { result ≡ slice_index parts.now id }
{
    parts.get(id).copied().unwrap_or(0)
}

/// Whether an item is boxed inside an item, or outside items.
pub(crate) fn is_boxed(parts: &[u32], owner: Option<usize>, used: usize) -> bool
    ensures { result ≡ boxed_in parts.now owner used }
{
    match owner {
        Some(owner) => lie_together(parts, owner, used),
        None => false,
    }
}

/// Whether an entry leads to an option.
pub fn leads_to_option(leads: &[bool], id: TypeId) -> bool
    ensures { result ≡ leads_by leads.now id.0 }
{
    leads.get(id.0 as usize).copied().unwrap_or(false)
}
