//! Notes of a document as they are told.
ghost use Rattle.std.specs.Prelude.{◌≡◌, IfOk, map};
ghost use Rattle.row_findings.specs.View.{way_view, kind_view};
ghost use Rattle.note_order.specs.Notes.{name_view, placed_view, notes_view};
ghost use Rattle.convert_document.specs.Note.{way_of as way_told, kind_of as kind_told, name_of as name_told, note_of as note_told};

use crate::note::{Note, NoteKind, Way};
use note_order::{NoteName, PlacedNote};
use std::alloc::{AllocError, Global};

fn way_of(way: row_findings::Way) -> Way
    ensures { result ≡ way_told (way_view way) }
{
    match way {
        row_findings::Way::Narrowed => Way::Narrowed,
        row_findings::Way::Widened => Way::Widened,
    }
}

fn kind_of(kind: row_findings::NoteKind) -> NoteKind
    ensures { result ≡ kind_told (kind_view kind) }
{
    match kind {
        row_findings::NoteKind::Untyped => NoteKind::N1,
        row_findings::NoteKind::Null => NoteKind::N2,
        row_findings::NoteKind::Const => NoteKind::N3,
        row_findings::NoteKind::Integer => NoteKind::N4,
        row_findings::NoteKind::String => NoteKind::N5,
        row_findings::NoteKind::Array => NoteKind::N6,
        row_findings::NoteKind::OpenBranch => NoteKind::N7,
        row_findings::NoteKind::MixedBranches => NoteKind::N8,
        row_findings::NoteKind::TagAlone => NoteKind::N9,
        row_findings::NoteKind::Boolean => NoteKind::N10,
        row_findings::NoteKind::Type => NoteKind::N11,
        row_findings::NoteKind::Overlap => NoteKind::N12,
        row_findings::NoteKind::Counts => NoteKind::N13,
        row_findings::NoteKind::Names => NoteKind::N14,
        row_findings::NoteKind::Not => NoteKind::N15,
    }
}

fn name_of(name: NoteName) -> NoteKind
    ensures { result ≡ name_told (name_view name) }
{
    match name {
        NoteName::Row(kind) => kind_of(kind),
        NoteName::Reference => NoteKind::N16,
        NoteName::Formats => NoteKind::N17,
        NoteName::Clash => NoteKind::N18,
        NoteName::Members => NoteKind::N19,
        NoteName::Subtract => NoteKind::N20,
        NoteName::Absent => NoteKind::N21,
    }
}

fn note_of(note: PlacedNote) -> Note
    ensures { result ≡ note_told (placed_view note) }
{
    Note {
        way: way_of(note.way),
        kind: name_of(note.name),
        path: note.path,
    }
}

/// The notes as they are told, in the order in which they stand. Fails only for want of memory.
pub fn notes_of(alloc: Global, placed: Vec<PlacedNote>) -> Result<Vec<Note>, AllocError>
    ensures { IfOk result (λ v. v.items ≡ map note_told (notes_view placed.items)) }
{
    let mut notes = Vec::with_capacity(alloc, placed.len())?;
    for note in placed {
        let told = note_of(note);
        notes.push(told)?;
    }
    Ok(notes)
}
