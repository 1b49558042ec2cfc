//! How many items two reports have, and their notes.
ghost use Rattle.std.specs.Prelude.{◌≡◌, ◌++◌, IfOk, OnOk, string_bytes};
ghost use Rattle.covers_run.specs.Page.{both_items, pair_head, side_items as side_items_of, side_note as side_note_of, side_notes};

use convert_document::Note;
use std::alloc::{AllocError, Global};
use typify_run::{Report, note_line};

fn side_items(alloc: Global, side: &str, count: usize) -> Result<String, AllocError>
    ensures { IfOk result (λ s. string_bytes s ≡ side_items_of side.now count) }
{
    let number = count.to_string(alloc)?;
    let mut line = String::from_str(alloc, side)?;
    line.push_str(" items ")?;
    line.push_str(&number)?;
    line.push_str("\n")?;
    Ok(line)
}

fn side_note(alloc: Global, side: &str, note: &Note) -> Result<String, AllocError>
    ensures { IfOk result (λ s. string_bytes s ≡ side_note_of side.now note.now) }
{
    let note = note_line(alloc, note)?;
    let mut line = String::from_str(alloc, side)?;
    line.push_str(" ")?;
    line.push_str(&note)?;
    Ok(line)
}

fn push_notes(out: &mut String, alloc: Global, side: &str, notes: &[Note]) -> Result<(), AllocError>
    ensures { OnOk result (string_bytes out.new ≡ string_bytes out.old ++ side_notes side.now notes.now) }
{
    for note in notes {
        out.push_str(&side_note(alloc, side, note)?)?;
    }
    Ok(())
}

fn both_items(alloc: Global, old: &Report, new: &Report) -> Result<String, AllocError>
    ensures { IfOk result (λ s. string_bytes s ≡ both_items old.now new.now) }
{
    let mut text = side_items(alloc, "old", old.items.len())?;
    text.push_str(&side_items(alloc, "new", new.items.len())?)?;
    Ok(text)
}

/// The lines that stand before the answer: the numbers of items, and the notes.
pub(crate) fn pair_head(alloc: Global, old: &Report, new: &Report) -> Result<String, AllocError>
    ensures { IfOk result (λ s. string_bytes s ≡ pair_head old.now new.now) }
{
    let mut text = both_items(alloc, old, new)?;
    push_notes(&mut text, alloc, "old", &old.notes)?;
    push_notes(&mut text, alloc, "new", &new.notes)?;
    Ok(text)
}
