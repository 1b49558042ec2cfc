//! What is said of a schema.
ghost use Rattle.std.specs.Prelude.{◌≡◌, ◌++◌, IfOk, OnOk, codes, length, string_bytes};
ghost use Rattle.serde_json.specs.View.{view};
ghost use Rattle.json_value.specs.View.{value_of};
ghost use Rattle.fault_texts.specs.Explained.{line as line_of};
ghost use Rattle.typify_run.specs.Page.{items_line};
ghost use Rattle.schema_words.specs.Said.{said_of};
ghost use Rattle.explain_run.specs.Notes.{note_sentence as note_sentence_of};
ghost use Rattle.explain_run.specs.Answers.{Explains, Tells, compiled_page, ending, fault_page, note_explained, notes_explained};

use crate::notes::note_sentence;
use convert_document::Note;
use fault_places::push_place;
use fault_texts::fault_explained;
use passed_keywords::passed_text;
use schema_tree::Fault;
use schema_words::{Answer, Answering};
use serde_json::Value;
use std::alloc::{AllocError, Global};
use typify_run::{Report, note_line};

/// What `explain` answers: that the schema compiles, with the number of items and each note with what it means, or its first fault with what it carries, the
/// rule, what to change, and what stands at its place; then the keywords that are passed over, and `end`.
#[derive(Clone, Copy)]
pub struct Explaining;

// What a note means.
fn push_meaning(out: &mut String, note: &Note) -> Result<(), AllocError>
    ensures { OnOk result (string_bytes out.new ≡ string_bytes out.old ++ line_of (codes "means") (note_sentence_of note.now.way note.now.kind)) }
{
    out.push_str("means ")?;
    out.push_str(note_sentence(note.way, note.kind))?;
    out.push_str("\n")?;
    Ok(())
}

fn push_note(out: &mut String, alloc: Global, note: &Note) -> Result<(), AllocError>
    ensures { OnOk result (string_bytes out.new ≡ string_bytes out.old ++ note_explained note.now) }
{
    let line = note_line(alloc, note)?;
    out.push_str(&line)?;
    push_meaning(out, note)?;
    Ok(())
}

fn push_notes(out: &mut String, alloc: Global, notes: &[Note]) -> Result<(), AllocError>
    ensures { OnOk result (string_bytes out.new ≡ string_bytes out.old ++ notes_explained notes.now) }
{
    for note in notes {
        push_note(out, alloc, note)?;
    }
    Ok(())
}

// The keywords that are passed over, and the end.
fn push_ending(out: &mut String, alloc: Global, schema: &Value) -> Result<(), AllocError>
    ensures { OnOk result (string_bytes out.new ≡ string_bytes out.old ++ ending (value_of (view schema.now))) }
{
    let passed = passed_text(alloc, schema)?;
    out.push_str(&passed)?;
    out.push_str("end\n")?;
    Ok(())
}

fn push_count(out: &mut String, alloc: Global, count: usize) -> Result<(), AllocError>
    ensures { OnOk result (string_bytes out.new ≡ string_bytes out.old ++ items_line count) }
{
    let line = format!(in alloc; "items {count}\n")?;
    out.push_str(&line)?;
    Ok(())
}

fn compiled_text(alloc: Global, schema: &Value, report: &Report) -> Result<String, AllocError>
    ensures { IfOk result (λ s. string_bytes s ≡ compiled_page (value_of (view schema.now)) report.now) }
{
    let mut text = String::from_str(alloc, "compiles\n")?;
    push_count(&mut text, alloc, report.items.len())?;
    push_notes(&mut text, alloc, &report.notes)?;
    push_ending(&mut text, alloc, schema)?;
    Ok(text)
}

fn fault_text(alloc: Global, schema: &Value, fault: &Fault) -> Result<String, AllocError>
    ensures { IfOk result (λ s. string_bytes s ≡ fault_page (view schema.now) fault.now) }
{
    let mut text = fault_explained(alloc, fault)?;
    push_place(&mut text, alloc, schema, fault)?;
    push_ending(&mut text, alloc, schema)?;
    Ok(text)
}

impl Answering for Explaining {
    ghost answers = { Explains };

    ghost tells = { Tells };

    fn answer(&self, alloc: Global, schema: &Value, report: &Report) -> Result<Answer, AllocError> {
        let text = compiled_text(alloc, schema, report)?;
        Ok(Answer::Page(text))
    }

    fn tell(&self, alloc: Global, schema: &Value, fault: &Fault) -> Result<String, AllocError> {
        let text = fault_text(alloc, schema, fault)?;
        Ok(text)
    }
}
