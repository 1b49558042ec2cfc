//! What stands in the document at the place of a fault, or where a reference leads.
ghost use Rattle.std.specs.Prelude.{◌≡◌, ◌++◌, IfOk, OnOk, Some, option_map, string_bytes};
ghost use Rattle.serde_json.specs.View.{view};
ghost use Rattle.fault_places.specs.Found.{found_lines, held as held_at, held_lines, kind_word as kind_said, led_to as leads_to, placed as placed_at, reference_lines, type_lines};

use fault_texts::{push_line, push_whole};
use schema_tree::Location;
use serde_json::Value;
use std::alloc::{AllocError, Global};

/// What a text leads to that is `#` and a JSON pointer (RFC 6901).
pub(crate) fn led_to<'v>(text: &str, document: &'v Value) -> Option<&'v Value>
    ensures { option_map (λ v. view v.now) result ≡ leads_to text.now (view document.now) }
{
    match text.strip_prefix("#") {
        Some(pointer) => document.pointer(pointer),
        None => None,
    }
}

/// What stands at a place.
pub(crate) fn placed<'v>(
    alloc: Global,
    place: &Location,
    document: &'v Value,
) -> Result<Option<&'v Value>, AllocError>
    ensures { IfOk result (λ o. option_map (λ v. view v.now) o ≡ placed_at place.now (view document.now)) }
{
    let text = place.text(alloc)?;
    Ok(led_to(&text, document))
}

// What a keyword of a schema holds; of what is no object, or hasn't the keyword, itself.
fn held<'v>(keyword: &str, schema: &'v Value) -> &'v Value
    ensures { view result.now ≡ held_at keyword.now (view schema.now) }
{
    match schema.get(keyword) {
        Some(value) => value,
        None => schema,
    }
}

fn kind_word(value: &Value) -> &'static str
    ensures { result.now ≡ kind_said (view value.now) }
{
    match value {
        Value::Null => "null",
        Value::Bool(_) => "a boolean",
        Value::Number(_) => "a number",
        Value::String(_) => "a text",
        Value::Array(_) => "a list",
        Value::Object(_) => "an object",
    }
}

// The kind of what was found, and the value where all its numbers are whole.
fn push_found(out: &mut String, alloc: Global, value: &Value) -> Result<(), AllocError>
    ensures { OnOk result (string_bytes out.new ≡ string_bytes out.old ++ found_lines (view value.now)) }
{
    push_line(out, "found", kind_word(value))?;
    push_whole(out, alloc, "value", value)?;
    Ok(())
}

/// What a keyword holds that is malformed.
pub(crate) fn push_held(
    out: &mut String,
    alloc: Global,
    keyword: &str,
    schema: Option<&Value>,
) -> Result<(), AllocError>
    ensures { OnOk result (string_bytes out.new ≡ string_bytes out.old ++ held_lines keyword.now (option_map (λ v. view v.now) schema.entry)) }
{
    match schema {
        Some(schema) => push_found(out, alloc, held(keyword, schema)),
        None => Ok(()),
    }
}

// The type that a schema states.
fn push_stated(out: &mut String, alloc: Global, schema: &Value) -> Result<(), AllocError>
    ensures { OnOk result (string_bytes out.new ≡ string_bytes out.old ++ type_lines (Some (view schema.now))) }
{
    match schema.get("type") {
        Some(stated) => push_whole(out, alloc, "type", stated),
        None => Ok(()),
    }
}

/// The same, where there is a schema.
pub(crate) fn push_type(
    out: &mut String,
    alloc: Global,
    schema: Option<&Value>,
) -> Result<(), AllocError>
    ensures { OnOk result (string_bytes out.new ≡ string_bytes out.old ++ type_lines (option_map (λ v. view v.now) schema.entry)) }
{
    match schema {
        Some(schema) => push_stated(out, alloc, schema),
        None => Ok(()),
    }
}

/// Whether something stands where a reference leads that names no definition.
pub(crate) fn push_reference(out: &mut String, leads: bool) -> Result<(), AllocError>
    ensures { OnOk result (string_bytes out.new ≡ string_bytes out.old ++ reference_lines leads) }
{
    if leads {
        push_line(
            out,
            "found",
            "a value there, which is no definition of the root",
        )
    } else {
        push_line(out, "found", "nothing there")
    }
}
