//! Notes that stand where a test says so, and schemas that are made.
ghost use Rattle.std.specs.Prelude.{◌≡◌, ◌++◌, IfOk, map};
ghost use Rattle.convert_defs.specs.Row.{here, made as made_of};
ghost use Rattle.convert_defs.specs.IntegerRow.{note_if};
ghost use Rattle.row_findings.specs.Given.{keywords_view};
ghost use Rattle.row_findings.specs.View.{note_view, way_view, kind_view, part_view};

use crate::finding::{Note, NoteKind, Way};
use crate::given::{Keywords, Source};
use crate::part::{Part, PartKind, Steps};
use std::alloc::{AllocError, Global};

/// The notes, and one more at the schema itself where it is due.
pub fn with_note<'d>(
    mut notes: Vec<Note<'d>>,
    is_due: bool,
    way: Way,
    kind: NoteKind,
) -> Result<Vec<Note<'d>>, AllocError>
    ensures { IfOk result (λ v. map note_view v.items ≡ map note_view notes.entry.items ++ note_if is_due (here (way_view way) (kind_view kind))) }
{
    if !is_due {
        return Ok(notes);
    }
    notes.push(Note {
        way,
        kind,
        place: Steps::Here,
    })?;
    Ok(notes)
}

/// The part that is made of those keywords.
pub fn made<'d>(alloc: Global, keywords: Keywords<'d>) -> Result<Part<'d>, AllocError>
    ensures { IfOk result (λ p. part_view p ≡ made_of (keywords_view keywords.entry)) }
{
    Ok(Part {
        kind: PartKind::Made,
        steps: Steps::Here,
        source: Source::Made(Box::new(alloc, keywords)?),
    })
}
