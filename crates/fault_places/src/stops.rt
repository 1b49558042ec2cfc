//! Where reading stops of patterns.
ghost use Rattle.std.specs.Prelude.{◌≡◌, ◌++◌, IfOk, OnOk, Some, codes, option_map, string_bytes};
ghost use Rattle.serde_json.specs.View.{view, members_view};
ghost use Rattle.serde_json.specs.Find.{get};
ghost use Rattle.fault_texts.specs.Explained.{line};
ghost use Rattle.fault_places.specs.Found.{lines_of};
ghost use Rattle.fault_places.specs.Stops.{before_next as before_next_of, lines_by, names_lines, object_lines, pattern_lines, schema_lines, stop_said, text_lines};

use fault_texts::{push_line, push_quoted};
use plain_patterns::{Stop, reading_stop};
use schema_tree::json_string;
use serde_json::Value;
use serde_json::value::Map;
use std::alloc::{AllocError, Global};

fn before_next(alloc: Global, read: usize, next: &str) -> Result<String, AllocError>
    ensures { IfOk result (λ s. string_bytes s ≡ before_next_of read next.now) }
{
    let mut said = String::from_str(alloc, "stops at character ")?;
    let number = read.to_string(alloc)?;
    said.push_str(&number)?;
    said.push_str(", before ")?;
    let quoted = json_string(alloc, next)?;
    said.push_str(&quoted)?;
    Ok(said)
}

fn push_stop(out: &mut String, alloc: Global, read: usize, next: &str) -> Result<(), AllocError>
    ensures { OnOk result (string_bytes out.new ≡ string_bytes out.old ++ line (codes "reading") (stop_said read next.now)) }
{
    if next.len() == 0 {
        push_line(out, "reading", "stops at the end, where a group is open")?;
        return Ok(());
    }
    let said = before_next(alloc, read, next)?;
    push_line(out, "reading", &said)?;
    Ok(())
}

// The pattern, and where reading it stops.
fn push_stopped(
    out: &mut String,
    alloc: Global,
    pattern: &str,
    stop: &Stop,
) -> Result<(), AllocError>
    ensures { OnOk result (string_bytes out.new ≡ string_bytes out.old ++ lines_by pattern.now (Some (stop.now.read, string_bytes stop.now.next))) }
{
    push_quoted(out, alloc, "pattern", pattern)?;
    push_stop(out, alloc, stop.read, &stop.next)?;
    Ok(())
}

fn push_found(
    out: &mut String,
    alloc: Global,
    pattern: &str,
    found: &Option<Stop>,
) -> Result<(), AllocError>
    ensures { OnOk result (string_bytes out.new ≡ string_bytes out.old ++ lines_by pattern.now (option_map (λ s. (s.read, string_bytes s.next)) found.now)) }
{
    match found {
        Some(stop) => push_stopped(out, alloc, pattern, stop),
        None => Ok(()),
    }
}

// The same, and nothing of a pattern that is plain.
fn push_pattern(out: &mut String, alloc: Global, pattern: &str) -> Result<(), AllocError>
    ensures { OnOk result (string_bytes out.new ≡ string_bytes out.old ++ pattern_lines pattern.now) }
{
    let found = reading_stop(alloc, pattern)?;
    push_found(out, alloc, pattern, &found)?;
    Ok(())
}

fn push_text(out: &mut String, alloc: Global, value: &Value) -> Result<(), AllocError>
    ensures { OnOk result (string_bytes out.new ≡ string_bytes out.old ++ text_lines (view value.now)) }
{
    match value {
        Value::String(text) => push_pattern(out, alloc, text),
        _ => Ok(()),
    }
}

#[tactic(auto, using(crate::proofs::Names::one_more))]
fn push_names(
    out: &mut String,
    alloc: Global,
    members: &Map<String, Value>,
) -> Result<(), AllocError>
    ensures { OnOk result (string_bytes out.new ≡ string_bytes out.old ++ names_lines (members_view members.now.entries)) }
{
    for (name, _value) in members.iter() {
        push_pattern(out, alloc, name)?;
    }
    Ok(())
}

fn push_object(out: &mut String, alloc: Global, value: &Value) -> Result<(), AllocError>
    ensures { OnOk result (string_bytes out.new ≡ string_bytes out.old ++ object_lines (view value.now)) }
{
    match value {
        Value::Object(members) => push_names(out, alloc, members),
        _ => Ok(()),
    }
}

// Of the keyword `pattern`.
fn push_own(out: &mut String, alloc: Global, schema: &Value) -> Result<(), AllocError>
    ensures { OnOk result (string_bytes out.new ≡ string_bytes out.old ++ lines_of text_lines (get (codes "pattern") (view schema.now))) }
{
    match schema.get("pattern") {
        Some(value) => push_text(out, alloc, value),
        None => Ok(()),
    }
}

// Of the keyword `patternProperties`.
fn push_named(out: &mut String, alloc: Global, schema: &Value) -> Result<(), AllocError>
    ensures { OnOk result (string_bytes out.new ≡ string_bytes out.old ++ lines_of object_lines (get (codes "patternProperties") (view schema.now))) }
{
    match schema.get("patternProperties") {
        Some(value) => push_object(out, alloc, value),
        None => Ok(()),
    }
}

fn push_schema(out: &mut String, alloc: Global, schema: &Value) -> Result<(), AllocError>
    ensures { OnOk result (string_bytes out.new ≡ string_bytes out.old ++ schema_lines (view schema.now)) }
{
    push_own(out, alloc, schema)?;
    push_named(out, alloc, schema)?;
    Ok(())
}

/// Two lines for each pattern of a schema that isn't plain: `pattern` and the pattern, and `reading` and where it stops. They
/// are its `pattern` and the names in its `patternProperties`.
pub(crate) fn push_stops(
    out: &mut String,
    alloc: Global,
    schema: Option<&Value>,
) -> Result<(), AllocError>
    ensures { OnOk result (string_bytes out.new ≡ string_bytes out.old ++ lines_of schema_lines (option_map (λ v. view v.now) schema.entry)) }
{
    match schema {
        Some(schema) => push_schema(out, alloc, schema),
        None => Ok(()),
    }
}
