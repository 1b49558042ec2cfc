//! Notes of rows and of merges at their places.
ghost use Rattle.std.specs.Prelude.{◌≡◌, ◌++◌, ◌∷◌, [], None, OnOk, map};
ghost use Rattle.convert_defs.specs.Convert.{Handed};
ghost use Rattle.convert_walks.specs.Told.{merge_note, name_of as name_of_kind, placed_note, way_of as way_of_merge};
ghost use Rattle.merge_parts.specs.View.{kind_view as merge_kind_view, notes_view as merge_notes_view, way_view as merge_way_view};
ghost use Rattle.note_order.specs.Notes.{name_view, notes_view};
ghost use Rattle.row_findings.specs.View.{branch_view, note_view as row_note_view, way_view};
ghost use Rattle.merged_rows.specs.Starts.{spot_of};

use crate::parts::note_path;
use crate::places::location_of;
use crate::start::Start;
use merge_parts::{MergeKind, MergeNote};
use note_order::{NoteName, PlacedNote};
use row_findings::{Branch, Note, NoteKind, Steps, Way};
use schema_types::Location;
use std::alloc::{AllocError, Global};

fn push_note(
    told: &mut Vec<PlacedNote>,
    way: Way,
    name: NoteName,
    path: Location,
) -> Result<(), AllocError>
    ensures { OnOk result (notes_view told.new.items ≡ notes_view told.old.items ++ record { way = way_view way; name = name_view name; place = path } ∷ []) }
{
    told.push(PlacedNote { way, name, path })?;
    Ok(())
}

fn name_of(kind: MergeKind) -> NoteName
    ensures { name_view result ≡ name_of_kind (merge_kind_view kind) }
{
    match kind {
        MergeKind::Integer => NoteName::Row(NoteKind::Integer),
        MergeKind::Names => NoteName::Row(NoteKind::Names),
        MergeKind::Reference => NoteName::Reference,
        MergeKind::Formats => NoteName::Formats,
        MergeKind::Clash => NoteName::Clash,
        MergeKind::Members => NoteName::Members,
        MergeKind::Subtract => NoteName::Subtract,
        MergeKind::Absent => NoteName::Absent,
    }
}

fn way_of(way: merge_parts::Way) -> Way
    ensures { way_view result ≡ way_of_merge (merge_way_view way) }
{
    match way {
        merge_parts::Way::Narrowed => Way::Narrowed,
        merge_parts::Way::Widened => Way::Widened,
    }
}

/// The notes of a merge, at the schema at the end of a trail whose row merges. Fails only for want of memory.
pub fn push_merge_notes(
    alloc: Global,
    start: &Start,
    trail: &Vec<Steps<'_>>,
    notes: &Vec<MergeNote>,
    told: &mut Vec<PlacedNote>,
) -> Result<(), AllocError>
    ensures { OnOk result ((h : Handed) → notes_view told.new.items ≡ notes_view told.old.items ++ map (merge_note (spot_of start.now trail.now.items h)) (merge_notes_view notes.now.items)) }
{
    for note in notes {
        let path = location_of(alloc, start, trail)?;
        push_note(told, way_of(note.way), name_of(note.kind), path)?;
    }
    Ok(())
}

/// The notes of a row, at the schema at the end of a trail, or at its branches. Fails only for want of memory.
pub fn push_row_notes<'d>(
    alloc: Global,
    start: &Start,
    trail: &Vec<Steps<'d>>,
    branches: &Vec<Branch<'d>>,
    notes: &Vec<Note<'d>>,
    told: &mut Vec<PlacedNote>,
) -> Result<(), AllocError>
    ensures { OnOk result (notes_view told.new.items ≡ notes_view told.old.items ++ map (placed_note (spot_of start.now trail.now.items None) (map branch_view branches.now.items)) (map row_note_view notes.now.items)) }
{
    for note in notes {
        let path = note_path(alloc, start, trail, branches, note.place)?;
        push_note(told, note.way, NoteName::Row(note.kind), path)?;
    }
    Ok(())
}
