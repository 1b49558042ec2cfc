//! A space that is given up: what is emitted for it.
ghost use Rattle.std.specs.Prelude.{◌≡◌, ◌⊎◌, Some, None, IfErr, IfOk, OnOk, map, option_map};
ghost use Rattle.schema_tree.specs.Fault.{fault_view, memory};
ghost use Rattle.convert_walks.specs.Told.{ordered};
ghost use Rattle.entry_space.specs.Seen.{seen};
ghost use Rattle.entry_types.specs.View.{id_view};
ghost use Rattle.note_order.specs.Notes.{notes_view};
ghost use Rattle.space_defs.specs.Emission.{emission_at};
ghost use Rattle.convert_document.specs.Emitted.{emitted_view};
ghost use Rattle.convert_document.specs.Note.{note_of};
ghost use Rattle.typify_convert.specs.Kept.{listed_view};
ghost use Rattle.typify_convert.specs.Refused.{IsFirstUnread};

use crate::keeping::{Held, Listed};
use convert_document::{Emitted, PlacedNote, notes_of};
use emit_space::emit;
use entry_space::{EntrySpace, TypeId};
use note_order::ordered_notes;
use schema_tree::Fault;
use std::alloc::{AllocError, Global};

fn invalid(unread: Listed) -> Fault
    ensures { IsFirstUnread (Some (listed_view unread)) (fault_view result) }
{
    Fault::InvalidValue {
        path: unread.path,
        value: unread.value,
    }
}

fn check_read(unread: Option<Listed>) -> Result<(), Fault>
    ensures read { OnOk result (option_map listed_view unread ≡ None) }
    ensures told { IfErr result (λ f. IsFirstUnread (option_map listed_view unread) (fault_view f)) }
{
    match unread {
        None => Ok(()),
        Some(unread) => Err(invalid(unread)),
    }
}

fn ended(
    alloc: Global,
    space: EntrySpace,
    notes: Vec<PlacedNote>,
    root: TypeId,
) -> Result<Emitted, AllocError>
    ensures emission { IfOk result (λ e. emitted_view e ≡ emission_at (seen space) (id_view root)) }
    ensures notes { IfOk result (λ e. e.notes.items ≡ map note_of (ordered (notes_view notes.items))) }
{
    let entries = space.into_entries()?;
    let emission = emit(alloc, &entries, root)?;
    let sorted = ordered_notes(alloc, notes)?;
    let told = notes_of(alloc, sorted)?;
    Ok(Emitted {
        items: emission.items,
        table: emission.conversions,
        root: emission.root,
        notes: told,
    })
}

/// The first stated value that isn't read, or else what is emitted, with the notes in their order.
pub(crate) fn finished(alloc: Global, held: Held, root: TypeId) -> Result<Emitted, Fault>
    ensures emission { IfOk result (λ e. emitted_view e ≡ emission_at (seen held.plan.space) (id_view root)) }
    ensures notes { IfOk result (λ e. e.notes.items ≡ map note_of (ordered (notes_view held.notes.items))) }
    ensures read { OnOk result (option_map listed_view held.unread ≡ None) }
    ensures refused { IfErr result (λ f. (fault_view f ≡ memory) ⊎ IsFirstUnread (option_map listed_view held.unread) (fault_view f)) }
{
    let Held {
        plan,
        notes,
        unread,
    } = held;
    check_read(unread)?;
    match ended(alloc, plan.space, notes, root) {
        Ok(emitted) => Ok(emitted),
        Err(_) => Err(Fault::Memory),
    }
}
