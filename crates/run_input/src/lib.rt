//! The input of a run: one JSON object with exactly the members `schema` and `values`.
#![tactic(auto)]

ghost use Rattle.std.specs.Prelude.{◌≡◌, IfOk, IfErr, Some, None, IsUtf8, option_map};
ghost use Rattle.serde_json.specs.Read.{read as read_text};
ghost use Rattle.serde_json.specs.View.{view, items_view};
ghost use Rattle.whole_numbers.specs.Whole.{whole};
ghost use Rattle.run_input.specs.Input.{IsNoInput, limit, parts_of};

use serde_json::Value;
use std::alloc::Global;
use whole_numbers::whole_numbers;

/// The most bytes of an input.
pub const LIMIT: usize = 16_777_216;

/// The schema and the values of an input.
#[derive(Clone, Copy)]
pub struct InputParts<'a> {
    pub schema: &'a Value,
    pub values: &'a Vec<Value>,
}

/// The same, taken out of the input.
#[derive(Drop)]
pub struct OwnedParts {
    pub schema: Value,
    pub values: Vec<Value>,
}

/// Why bytes give no value.
#[derive(Clone, Copy, PartialEq, Eq, Debug)]
pub enum InputError {
    /// They are not JSON (RFC 8259) in UTF-8.
    NotJson,
    /// Memory ran out.
    Memory,
}

/// The JSON value of bytes, in which each number that is whole is first written as an integer: `1.0` is 1.
pub fn input_value(alloc: Global, bytes: &[u8]) -> Result<Value, InputError>
    ensures value { IfOk result (λ v. IsUtf8 (whole bytes.now) × (read_text (whole bytes.now) ≡ Some (view v))) }
    ensures not_json { IfErr result (λ e. e ≡ InputError.NotJson → IsUtf8 (whole bytes.now) → read_text (whole bytes.now) ≡ None) }
    ensures no_input { IfErr result (λ e. e ≡ InputError.NotJson → IsNoInput bytes.now) }
{
    let Ok(rewritten) = whole_numbers(alloc, bytes) else {
        return Err(InputError::Memory);
    };
    written_value(alloc, &rewritten)
}

/// The same of bytes that are given back before the value is read.
pub fn owned_value(alloc: Global, bytes: Vec<u8>) -> Result<Value, InputError>
    ensures value { IfOk result (λ v. IsUtf8 (whole bytes.items) × (read_text (whole bytes.items) ≡ Some (view v))) }
    ensures not_json { IfErr result (λ e. e ≡ InputError.NotJson → IsUtf8 (whole bytes.items) → read_text (whole bytes.items) ≡ None) }
    ensures no_input { IfErr result (λ e. e ≡ InputError.NotJson → IsNoInput bytes.items) }
{
    let Ok(rewritten) = whole_numbers(alloc, &bytes) else {
        return Err(InputError::Memory);
    };
    drop(bytes);
    written_value(alloc, &rewritten)
}

// The JSON value of bytes in which the numbers are written so.
fn written_value(alloc: Global, bytes: &[u8]) -> Result<Value, InputError>
    ensures value { IfOk result (λ v. IsUtf8 bytes.now × (read_text bytes.now ≡ Some (view v))) }
    ensures not_json { IfErr result (λ e. e ≡ InputError.NotJson → IsUtf8 bytes.now → read_text bytes.now ≡ None) }
{
    match Value::from_slice(alloc, bytes) {
        Ok(value) => Ok(value),
        Err(error) if error.is_memory() => Err(InputError::Memory),
        Err(_) => Err(InputError::NotJson),
    }
}

/// The parts of an input: of an object with exactly the members `schema` and `values`, the latter a list.
pub fn input_parts(value: &Value) -> Option<InputParts<'_>>
    ensures { option_map (λ p. record { schema = view p.schema.now; values = items_view p.values.now.items }) result ≡ parts_of (view value.now) }
{
    let Value::Object(members) = value else {
        return None;
    };
    let mut entries = members.iter();
    let Some((first, schema)) = entries.next() else {
        return None;
    };
    let Some((second, values)) = entries.next() else {
        return None;
    };
    if entries.next().is_some() || first.as_str() != "schema" || second.as_str() != "values" {
        return None;
    }
    match values {
        Value::Array(values) => Some(InputParts { schema, values }),
        _ => None,
    }
}

/// The same of an input that is taken apart.
pub fn owned_parts(value: Value) -> Option<OwnedParts>
    ensures { option_map (λ p. record { schema = view p.schema; values = items_view p.values.items }) result ≡ parts_of (view value) }
{
    let Value::Object(members) = value else {
        return None;
    };
    let mut entries = members.into_iter();
    let Some((first, schema)) = entries.next() else {
        return None;
    };
    let Some((second, values)) = entries.next() else {
        return None;
    };
    if entries.next().is_some() || first.as_str() != "schema" || second.as_str() != "values" {
        return None;
    }
    match values {
        Value::Array(values) => Some(OwnedParts { schema, values }),
        _ => None,
    }
}
