//! What an examination gives, and its page.
ghost use Rattle.std.specs.Prelude.{◌≡◌, ◌++◌, OnOk, IfOk, string_bytes, map, vec_len, length, false, decimal};
ghost use Rattle.serde_json.specs.Written.{has_float};
ghost use Rattle.serde_json.specs.View.{view};
ghost use Rattle.derive_model.specs.VerdictView.{verdict_view, taken, refused};
ghost use Rattle.typify_run.specs.Page.{head, page, page_of, items_page, item_line as item_line_of, item_lines, note_line as note_line_of, notes_text, value_line as value_line_of, verdict_line as verdict_line_of, verdict_lines, IsPrintable, ArePrintable};

use crate::words::Command;
use convert_document::Note;
use derive_model::Verdict;
use item_texts::replaced_text;
use schema_tree::{Conversions, Location, json_string};
use serde_json::Value;
use std::alloc::{AllocError, Global};
use syntax_trees::{DeriveInput, Ty};

/// The items that stand for a schema, with the table of what attributes don't say, the type of the root, the notes,
/// and a verdict for each listed value.
pub struct Report {
    pub items: Vec<DeriveInput>,
    pub conversions: Conversions,
    pub root: Ty,
    pub notes: Vec<Note>,
    pub verdicts: Vec<Verdict>,
}

impl Drop for Report {
    fn drop(self) {
        let Report {
            items: _items,
            conversions: _conversions,
            root: _root,
            notes: _notes,
            verdicts: _verdicts,
        } = self;
    }
}

/// The line of a note: the way, the kind and the place.
pub fn note_line(alloc: Global, note: &Note) -> Result<String, AllocError>
    ensures { IfOk result (λ s. string_bytes s ≡ note_line_of note.now) }
{
    let way = note.way.text();
    let kind = note.kind.text();
    let text = note.path.text(alloc)?;
    let path = json_string(alloc, &text)?;
    format!(in alloc; "note {way} {kind} {path}\n")
}

// `value`, a number, what is said of it, and a line feed.
fn value_line(alloc: Global, index: usize, said: &str, text: &str) -> Result<String, AllocError>
    ensures { IfOk result (λ s. string_bytes s ≡ value_line_of index said.now text.now) }
{
    let number = index.to_string(alloc)?;
    let mut line = String::from_str(alloc, "value ")?;
    line.push_str(&number)?;
    line.push_str(said)?;
    line.push_str(text)?;
    line.push_str("\n")?;
    Ok(line)
}

fn taken_line(alloc: Global, index: usize, written: &Value) -> Result<String, AllocError>
    requires { has_float (view written.now) ≡ false }
    ensures { IfOk result (λ s. string_bytes s ≡ verdict_line_of index (taken (view written.now))) }
{
    let json = written.to_string(alloc)?;
    value_line(alloc, index, " taken ", &json)
}

fn refused_line(alloc: Global, index: usize, path: &Location) -> Result<String, AllocError>
    ensures { IfOk result (λ s. string_bytes s ≡ verdict_line_of index (refused path.now)) }
{
    let text = path.text(alloc)?;
    let json = json_string(alloc, &text)?;
    value_line(alloc, index, " refused ", &json)
}

// The line of the verdict of that number.
#[tactic(auto, using(crate::proofs::Verdicts::taken_is, crate::proofs::Verdicts::refused_is))]
fn verdict_line(alloc: Global, index: usize, verdict: &Verdict) -> Result<String, AllocError>
    requires { IsPrintable (verdict_view verdict.now) }
    ensures { IfOk result (λ s. string_bytes s ≡ verdict_line_of index (verdict_view verdict.now)) }
{
    if let Some(written) = verdict.taken() {
        return taken_line(alloc, index, written);
    }
    match verdict.refused() {
        Some(path) => refused_line(alloc, index, path),
        None => Ok(String::new(alloc)),
    }
}

fn push_notes(out: &mut String, alloc: Global, notes: &[Note]) -> Result<(), AllocError>
    ensures { OnOk result (string_bytes out.new ≡ string_bytes out.old ++ notes_text notes.now) }
{
    for note in notes {
        out.push_str(&note_line(alloc, note)?)?;
    }
    Ok(())
}

fn push_verdicts(out: &mut String, alloc: Global, verdicts: &[Verdict]) -> Result<(), AllocError>
    requires { ArePrintable (map verdict_view verdicts.now) }
    ensures { OnOk result (string_bytes out.new ≡ string_bytes out.old ++ verdict_lines 0 (map verdict_view verdicts.now)) }
{
    for (index, verdict) in verdicts.iter().enumerate() {
        out.push_str(&verdict_line(alloc, index, verdict)?)?;
    }
    Ok(())
}

// The item's text and a line feed.
fn item_line(alloc: Global, item: &DeriveInput) -> Result<String, AllocError>
    ensures { IfOk result (λ s. string_bytes s ≡ item_line_of item.now) }
{
    let mut line = replaced_text(alloc, item)?;
    line.push_str("\n")?;
    Ok(line)
}

fn push_items(out: &mut String, alloc: Global, items: &[DeriveInput]) -> Result<(), AllocError>
    ensures { OnOk result (string_bytes out.new ≡ string_bytes out.old ++ item_lines items.now) }
{
    for item in items {
        out.push_str(&item_line(alloc, item)?)?;
    }
    Ok(())
}

/// The head of the page: a line with the number of items, and a line for each note.
pub fn head_text(alloc: Global, report: &Report) -> Result<String, AllocError>
    ensures { IfOk result (λ s. string_bytes s ≡ head report.now) }
{
    let count = report.items.len();
    let mut page = format!(in alloc; "items {count}\n")?;
    push_notes(&mut page, alloc, &report.notes)?;
    Ok(page)
}

impl Report {
    /// The page that the command asks for.
    pub(crate) fn page_of(&self, alloc: Global, command: Command) -> Result<String, AllocError>
        requires { ArePrintable (map verdict_view self.now.verdicts.items) }
        ensures { IfOk result (λ s. string_bytes s ≡ page_of command self.now) }
    {
        match command {
            Command::Check => self.page(alloc),
            Command::Items => self.items_page(alloc),
        }
    }

    // The number of items, a line for each note and each verdict, and `end`.
    fn page(&self, alloc: Global) -> Result<String, AllocError>
        requires { ArePrintable (map verdict_view self.now.verdicts.items) }
        ensures { IfOk result (λ s. string_bytes s ≡ page self.now) }
    {
        let mut page = head_text(alloc, self)?;
        push_verdicts(&mut page, alloc, &self.verdicts)?;
        page.push_str("end\n")?;
        Ok(page)
    }

    // The text of each item, a line each, and `end`.
    fn items_page(&self, alloc: Global) -> Result<String, AllocError>
        ensures { IfOk result (λ s. string_bytes s ≡ items_page self.now) }
    {
        let mut page = String::new(alloc);
        push_items(&mut page, alloc, &self.items)?;
        page.push_str("end\n")?;
        Ok(page)
    }
}
