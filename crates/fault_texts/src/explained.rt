//! The lines that explain a fault.
ghost use Rattle.std.specs.Prelude.{◌≡◌, ◌++◌, IfOk, OnOk, codes, decimal, string_bytes};
ghost use Rattle.serde_json.specs.View.{view};
ghost use Rattle.fault_texts.specs.Explained.{carried, fault_explained as fault_text, line as line_of, place_line, quoted_line, step_lines, whole_line};

use crate::sentences::{change_of, invalid_word, rule_of, unsupported_word};
use json_value::is_whole;
use schema_tree::{Fault, Location, Walk, json_string};
use serde_json::Value;
use std::alloc::{AllocError, Global};

/// A word, what is said with it, and a line feed.
pub fn push_line(out: &mut String, word: &str, said: &str) -> Result<(), AllocError>
    ensures { OnOk result (string_bytes out.new ≡ string_bytes out.old ++ line_of word.now said.now) }
{
    out.push_str(word)?;
    out.push_str(" ")?;
    out.push_str(said)?;
    out.push_str("\n")?;
    Ok(())
}

/// The same of a text, as a JSON string.
pub fn push_quoted(
    out: &mut String,
    alloc: Global,
    word: &str,
    text: &str,
) -> Result<(), AllocError>
    ensures { OnOk result (string_bytes out.new ≡ string_bytes out.old ++ quoted_line word.now text.now) }
{
    let quoted = json_string(alloc, text)?;
    push_line(out, word, &quoted)?;
    Ok(())
}

// The same of a place.
fn push_place(
    out: &mut String,
    alloc: Global,
    word: &str,
    place: &Location,
) -> Result<(), AllocError>
    ensures { OnOk result (string_bytes out.new ≡ string_bytes out.old ++ place_line word.now place.now) }
{
    let text = place.text(alloc)?;
    push_quoted(out, alloc, word, &text)?;
    Ok(())
}

// A line for each place.
fn push_places(out: &mut String, alloc: Global, places: &[Location]) -> Result<(), AllocError>
    ensures { OnOk result (string_bytes out.new ≡ string_bytes out.old ++ step_lines places.now) }
{
    for place in places {
        push_place(out, alloc, "step", place)?;
    }
    Ok(())
}

// A line for each place of a walk.
fn push_steps(out: &mut String, alloc: Global, walk: &Walk) -> Result<(), AllocError>
    ensures { OnOk result (string_bytes out.new ≡ string_bytes out.old ++ step_lines walk.now) }
{
    push_places(out, alloc, &walk.locations)?;
    Ok(())
}

/// The same of a value as JSON without spaces, where all its numbers are whole; else nothing.
#[tactic(auto, using(crate::proofs::Whole::whole_has_no_float, crate::proofs::Whole::whole_is_shown))]
pub fn push_whole(
    out: &mut String,
    alloc: Global,
    word: &str,
    value: &Value,
) -> Result<(), AllocError>
    ensures { OnOk result (string_bytes out.new ≡ string_bytes out.old ++ whole_line word.now (view value.now)) }
{
    if is_whole(value) {
        let json = value.to_string(alloc)?;
        push_line(out, word, &json)?;
    }
    Ok(())
}

fn push_number(out: &mut String, alloc: Global, number: u64) -> Result<(), AllocError>
    ensures { OnOk result (string_bytes out.new ≡ string_bytes out.old ++ line_of (codes "places") (decimal number)) }
{
    let text = number.to_string(alloc)?;
    push_line(out, "places", &text)?;
    Ok(())
}

// What a fault carries beside its place.
fn push_carried(out: &mut String, alloc: Global, fault: &Fault) -> Result<(), AllocError>
    ensures { OnOk result (string_bytes out.new ≡ string_bytes out.old ++ carried fault.now) }
{
    match fault {
        Fault::Malformed { keyword, .. } => push_quoted(out, alloc, "keyword", keyword),
        Fault::MissingRef { name, .. } => push_quoted(out, alloc, "reference", name),
        Fault::ExternalRef { name, .. } => push_quoted(out, alloc, "reference", name),
        Fault::Unguarded { walk } => push_steps(out, alloc, walk),
        Fault::Depth { walk } => push_steps(out, alloc, walk),
        Fault::Places { places, .. } => push_number(out, alloc, *places),
        Fault::InvalidValue { value, .. } => push_whole(out, alloc, "value", value),
        Fault::BadValue { value, .. } => push_whole(out, alloc, "value", value),
        Fault::InvalidSchema { kind, .. } => push_line(out, "kind", invalid_word(*kind)),
        Fault::Unsupported { kind, .. } => push_line(out, "kind", unsupported_word(*kind)),
        Fault::Memory | Fault::Float { .. } | Fault::ValueNumber { .. } | Fault::Texts { .. } => Ok(
            (),
        ),
    }
}

/// The line of the fault, then a line for what it carries beside its place, for its rule, and for what to change. Fails where memory runs out.
pub fn fault_explained(alloc: Global, fault: &Fault) -> Result<String, AllocError>
    ensures { IfOk result (λ s. string_bytes s ≡ fault_text fault.now) }
{
    let mut text = fault.line(alloc)?;
    push_carried(&mut text, alloc, fault)?;
    push_line(&mut text, "rule", rule_of(fault))?;
    push_line(&mut text, "change", change_of(fault))?;
    Ok(text)
}
