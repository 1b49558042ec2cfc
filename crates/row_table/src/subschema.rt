//! The line of subschemas.
ghost use Rattle.std.specs.Prelude.{◌≡◌, ◌&&◌, ◌++◌, is_some, IfOk, map, option_map};
ghost use Rattle.schema_defs.specs.Texts.{Relations};
ghost use Rattle.schema_tree.specs.Document.{view as document_seen};
ghost use Rattle.convert_defs.specs.Row.{add_notes, here, widened, type_note};
ghost use Rattle.convert_defs.specs.IntegerRow.{note_if};
ghost use Rattle.convert_defs.specs.Scalars.{wanted_of};
ghost use Rattle.convert_defs.specs.Table.{subschema_finding as subschema_finding_of, finding_or, no_others as no_others_of};
ghost use Rattle.row_findings.specs.Given.{plain_view, same_view, lists_view, named_view};
ghost use Rattle.row_findings.specs.View.{note_view, finding_view};
ghost use Rattle.type_rows.specs.Line.{held_view, line};

use row_findings::{Finding, Keywords, Note, NoteKind, Way, no_others, with_note};
use schema_tree::Document;
use std::alloc::{AllocError, Global};
use subschema_rows::subschema_finding;
use type_rows::hold;

// The finding, with those notes before its own.
fn after_notes<'d>(notes: Vec<Note<'d>>, finding: Finding<'d>) -> Result<Finding<'d>, AllocError>
    ensures { IfOk result (λ f. (r : Relations) → finding_view r f ≡ add_notes (map note_view notes.entry.items) (finding_view r finding.entry)) }
{
    let mut notes = notes;
    notes.extend_from_slice(finding.notes.as_slice())?;
    Ok(Finding {
        row: finding.row,
        notes,
        patterns: finding.patterns,
        branches: finding.branches,
        places: finding.places,
    })
}

fn has_types(keywords: &Keywords<'_>) -> bool
    ensures { result ≡ is_some (plain_view keywords.now).types }
{
    keywords.types.is_some()
}

// The note of a type beside subschemas.
fn type_notes<'d>(alloc: Global, keywords: &Keywords<'d>) -> Result<Vec<Note<'d>>, AllocError>
    ensures { IfOk result (λ v. map note_view v.items ≡ note_if (is_some (plain_view keywords.now).types) (here widened type_note)) }
{
    let notes = with_note(
        Vec::new(alloc),
        has_types(keywords),
        Way::Widened,
        NoteKind::Type,
    )?;
    Ok(notes)
}

/// One keyword of subschemas, beside a type at most.
#[tactic(auto, using(crate::proofs::Found::not_both, crate::proofs::Found::no_line))]
pub fn subschema_line<'d>(
    alloc: Global,
    document: &Document,
    keywords: &Keywords<'d>,
) -> Result<Option<Box<Finding<'d>>>, AllocError>
    ensures { IfOk result (λ o. (r : Relations) → option_map (held_view r) o ≡ line (is_some (subschema_finding_of (document_seen document.now) (wanted_of (plain_view keywords.now)) (same_view keywords.now)) && no_others_of (plain_view keywords.now) (lists_view keywords.now) (named_view keywords.now)) (add_notes (note_if (is_some (plain_view keywords.now).types) (here widened type_note)) (finding_or (subschema_finding_of (document_seen document.now) (wanted_of (plain_view keywords.now)) (same_view keywords.now))))) }
{
    if !no_others(keywords) {
        return Ok(None);
    }
    match subschema_finding(alloc, document, keywords)? {
        Some(finding) => {
            let notes = type_notes(alloc, keywords)?;
            let noticed = after_notes(notes, finding)?;
            let held = hold(alloc, noticed)?;
            Ok(Some(held))
        }
        None => Ok(None),
    }
}
