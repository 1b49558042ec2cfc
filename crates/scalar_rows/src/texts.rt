//! The row of texts.
ghost use Rattle.std.specs.Prelude.{◌≡◌, IfOk, map};
ghost use Rattle.schema_defs.specs.Texts.{Relations};
ghost use Rattle.convert_defs.specs.Row.{add_notes, asking};
ghost use Rattle.convert_defs.specs.Scalars.{given_format as given_format_of, patterns_in, string_finding as string_finding_of, ruled_text as ruled_text_of, wanted_of};
ghost use Rattle.row_findings.specs.Given.{plain_view};
ghost use Rattle.row_findings.specs.View.{note_view, leaf_view, patterns_view, finding_view};

use row_findings::{Finding, Keywords, Leaf, Note, NoteKind, Patterns, Row, Way, noted, with_note};
use schema_defs::Format;
use schema_texts::format_named;
use std::alloc::{AllocError, Global};

/// The format of texts that stands. It takes no memory.
pub fn given_format(keywords: &Keywords) -> Option<Format>
    ensures { result ≡ given_format_of (plain_view keywords.now) }
{
    match keywords.format {
        Some(name) => format_named(name),
        None => None,
    }
}

/// Texts by their format or their keywords, with the notes that are given before.
pub fn string_finding<'d>(
    alloc: Global,
    notes: Vec<Note<'d>>,
    keywords: &Keywords<'d>,
) -> Result<Finding<'d>, AllocError>
    ensures { IfOk result (λ f. (r : Relations) → finding_view r f ≡ asking (patterns_in (plain_view keywords.now)) (add_notes (map note_view notes.entry.items) (string_finding_of (plain_view keywords.now)))) }
{
    let finding = text_finding(alloc, notes, keywords)?;
    Ok(asking_patterns(finding, keywords))
}

#[tactic(auto, using(row_findings::proofs::PlainRows::plain_noted))]
fn text_finding<'d>(
    alloc: Global,
    notes: Vec<Note<'d>>,
    keywords: &Keywords<'d>,
) -> Result<Finding<'d>, AllocError>
    ensures { IfOk result (λ f. (r : Relations) → finding_view r f ≡ add_notes (map note_view notes.entry.items) (string_finding_of (plain_view keywords.now))) }
{
    match given_format(keywords) {
        Some(format) => {
            let noticed = with_note(
                notes,
                keywords.texts.is_some(),
                Way::Widened,
                NoteKind::String,
            )?;
            Ok(noted(alloc, noticed, Row::Leaf(Leaf::Native(format))))
        }
        None => Ok(noted(alloc, notes, Row::Leaf(ruled_text(keywords)))),
    }
}

// Any text, or texts that meet the keywords of texts.
fn ruled_text<'d>(keywords: &Keywords<'d>) -> Leaf<'d>
    ensures { (r : Relations) → leaf_view r result ≡ ruled_text_of (wanted_of (plain_view keywords.now)) (plain_view keywords.now).texts }
{
    match keywords.texts {
        Some(texts) => Leaf::Ruled {
            title: keywords.title,
            texts,
        },
        None => Leaf::Text,
    }
}

/// With the patterns of the schema to be asked first. It takes no memory.
pub fn asking_patterns<'d>(finding: Finding<'d>, keywords: &Keywords<'d>) -> Finding<'d>
    ensures { (r : Relations) → finding_view r result ≡ asking (patterns_in (plain_view keywords.now)) (finding_view r finding.entry) }
{
    Finding {
        row: finding.row,
        notes: finding.notes,
        patterns: patterns_of(keywords),
        branches: finding.branches,
        places: finding.places,
    }
}

fn patterns_of<'d>(keywords: &Keywords<'d>) -> Patterns<'d>
    ensures { patterns_view result ≡ patterns_in (plain_view keywords.now) }
{
    match keywords.texts {
        Some(texts) => Patterns::Listed(&texts.patterns),
        None => Patterns::Nothing,
    }
}
