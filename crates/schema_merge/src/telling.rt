//! What is told of an outcome: its notes at a place, and its schema without marks.
ghost use Rattle.std.specs.Prelude.{◌≡◌, [], IfErr, IfOk, map, option_map};
ghost use Rattle.schema_defs.specs.Schema.{Schema as SchemaOf};
ghost use Rattle.schema_defs.specs.Mapped.{mapped};
ghost use Rattle.schema_types.specs.View.{schema_view};
ghost use Rattle.merge_defs.specs.Outcome.{Outcome};
ghost use Rattle.merge_parts.specs.Steps.{Faults, Steps};
ghost use Rattle.merge_parts.specs.View.{note_view, notes_view};
ghost use Rattle.merge_walks.specs.Told.{note_at, told as told_of, told_at, unmark as unmark_of};
ghost use Rattle.schema_tree.specs.Fault.{fault_view};
ghost use Rattle.schema_merge.specs.Ordered.{ordered};
ghost use Rattle.schema_merge.specs.Refusals.{Refused};
ghost use Rattle.schema_merge.specs.View.{merged_view, placed_at, placed_view};

use crate::faults::refusal;
use crate::ordering::in_order;
use crate::told::{Merged, PlacedNote};
use crate::unmark::unmark;
use merge_parts::{MergeFault, MergeNote};
use schema_tree::Fault;
use schema_types::{Location, Schema};
use std::alloc::{AllocError, Global};

fn placed_note(alloc: Global, place: &Location, note: MergeNote) -> Result<PlacedNote, AllocError>
    ensures { IfOk result (λ n. placed_view n ≡ note_at place.now (note_view note)) }
{
    let path = place.try_clone(alloc)?;
    Ok(PlacedNote {
        way: note.way,
        kind: note.kind,
        path,
    })
}

fn placed(
    alloc: Global,
    place: &Location,
    notes: &Vec<MergeNote>,
) -> Result<Vec<PlacedNote>, AllocError>
    ensures { IfOk result (λ v. map placed_view v.items ≡ placed_at place.now (notes_view notes.now.items)) }
{
    let mut placed = Vec::with_capacity(alloc, notes.len())?;
    for note in notes {
        let one = placed_note(alloc, place, *note)?;
        placed.push(one)?;
    }
    Ok(placed)
}

fn without_marks(alloc: Global, schema: Option<Schema>) -> Result<Option<Schema>, AllocError>
    ensures { IfOk result (λ o. option_map schema_view o ≡ option_map (mapped unmark_of) (option_map schema_view schema)) }
{
    match schema {
        None => Ok(None),
        Some(schema) => {
            let bare = unmark(alloc, schema)?;
            Ok(Some(bare))
        }
    }
}

fn answered(
    alloc: Global,
    place: &Location,
    notes: &Vec<MergeNote>,
    schema: Option<Schema>,
) -> Result<Merged, AllocError>
    ensures { IfOk result (λ m. (o : Outcome SchemaOf) → Steps [] (notes_view notes.now.items) o (option_map schema_view schema) → told_at place.now (ordered o) ≡ told_of (merged_view m)) }
{
    let schema = without_marks(alloc, schema)?;
    let notes = in_order(alloc, notes)?;
    let notes = placed(alloc, place, &notes)?;
    Ok(Merged { schema, notes })
}

/// What is told at a place of an outcome that was found, with its notes in order.
pub(crate) fn tell(
    alloc: Global,
    place: Location,
    notes: Vec<MergeNote>,
    found: Result<Option<Schema>, MergeFault>,
) -> Result<Merged, Fault>
    ensures answered { IfOk result (λ m. (o : Outcome SchemaOf) → IfOk found (λ x. Steps [] (notes_view notes.items) o (option_map schema_view x)) → told_at place (ordered o) ≡ told_of (merged_view m)) }
    ensures refused { IfErr result (λ f. (o : Outcome SchemaOf) → IfErr found (λ e. Faults e o) → Refused (told_at place (ordered o)) (fault_view f)) }
{
    match found {
        Err(fault) => Err(refusal(fault, place)),
        Ok(schema) => match answered(alloc, &place, &notes, schema) {
            Ok(merged) => Ok(merged),
            Err(_) => Err(Fault::Memory),
        },
    }
}
