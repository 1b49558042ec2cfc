//! What a space keeps beside its entries.
ghost use Rattle.std.specs.Prelude.{◌≡◌, ◌++◌, IfOk, OnOk, option_map};
ghost use Rattle.note_order.specs.Notes.{notes_view};
ghost use Rattle.convert_document.specs.Keeping.{unread_view};
ghost use Rattle.typify_convert.specs.Kept.{listed_view, or_kept};

use crate::plan::Plan;
use convert_document::{PlacedNote, Unread};
use schema_tree::Location;
use serde_json::Value;
use std::alloc::AllocError;

/// A listed value, or a default, that isn't read, with the place of the schema.
#[derive(Drop)]
pub(crate) struct Listed {
    pub path: Location,
    pub value: Value,
}

/// The entries with the names that are given, the notes in the order of conversion, and the first stated value that isn't read. Nothing here
/// borrows from what conversion merges.
#[derive(Drop)]
pub(crate) struct Held {
    pub plan: Plan,
    pub notes: Vec<PlacedNote>,
    pub unread: Option<Listed>,
}

/// More notes, behind those that are there.
#[tactic(auto, using(crate::proofs::Taken::note_turn, crate::proofs::Taken::notes_end))]
pub(crate) fn take_notes(
    notes: &mut Vec<PlacedNote>,
    more: Vec<PlacedNote>,
) -> Result<(), AllocError>
    ensures { OnOk result (notes_view notes.new.items ≡ notes_view notes.old.items ++ notes_view more.items) }
{
    for note in more {
        notes.push(note)?;
    }
    Ok(())
}

fn owned(unread: Unread<'_>) -> Result<Listed, AllocError>
    ensures { IfOk result (λ u. listed_view u ≡ unread_view unread.entry) }
{
    let value = unread.value.clone()?;
    Ok(Listed {
        path: unread.path,
        value,
    })
}

fn maybe_owned(unread: Option<Unread<'_>>) -> Result<Option<Listed>, AllocError>
    ensures { IfOk result (λ u. option_map listed_view u ≡ option_map unread_view unread.entry) }
{
    match unread {
        None => Ok(None),
        Some(unread) => {
            let found = owned(unread)?;
            Ok(Some(found))
        }
    }
}

fn first_of(kept: Option<Listed>, found: Option<Listed>) -> Option<Listed>
    ensures { option_map listed_view result ≡ or_kept (option_map listed_view kept) (option_map listed_view found) }
{
    match kept {
        Some(kept) => Some(kept),
        None => found,
    }
}

/// The value is kept, unless one is there.
pub(crate) fn take_unread(
    kept: &mut Option<Listed>,
    unread: Option<Unread<'_>>,
) -> Result<(), AllocError>
    ensures { OnOk result (option_map listed_view kept.new ≡ or_kept (option_map listed_view kept.old) (option_map unread_view unread.entry)) }
{
    let found = maybe_owned(unread)?;
    let before = kept.take();
    *kept = first_of(before, found);
    Ok(())
}
