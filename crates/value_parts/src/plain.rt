//! Values read as plain types, of which the value itself is refused.
ghost use Rattle.std.specs.Prelude.{◌≡◌, ◌≤◌, IfErr, IfOk, IsErrOf, string_bytes};
ghost use Rattle.schema_defs.specs.Faults.{Rises};
ghost use Rattle.json_value.specs.View.{kept_view};
ghost use Rattle.typed_defs.specs.Typed.{any as any_typed, text as text_typed};
ghost use Rattle.value_models.specs.TypedView.{typed_view};
ghost use Rattle.reading_defs.specs.Reading.{boolean_read, integer_read, native_read, taken, text_read, unit_read};
ghost use Rattle.value_parts.specs.Seen.{outcome_view, whole_of};

use crate::outcome::{Outcome, refused_here};
use schema_defs::Format;
use schema_texts::{TextFault, Texts};
use serde_json::Value;
use std::alloc::Global;
use value_models::Typed;

/// As a boolean.
pub fn read_boolean(alloc: Global, value: &Value) -> Outcome<Typed>
    ensures { outcome_view typed_view result ≡ boolean_read (kept_view value.now) }
{
    match value {
        Value::Bool(b) => Outcome::Taken(Typed::Bool(*b)),
        _ => refused_here(alloc),
    }
}

// The whole number that the value is.
fn whole_number(value: &Value) -> Option<i128>
    ensures { result ≡ whole_of (kept_view value.now) }
{
    match value {
        Value::Number(number) => match number.as_u64() {
            Some(natural) => Some(i128::from(natural)),
            None => match number.as_i64() {
                Some(whole) => Some(i128::from(whole)),
                None => None,
            },
        },
        _ => None,
    }
}

/// As a whole number from the least to the greatest.
pub fn read_integer(alloc: Global, least: i128, greatest: i128, value: &Value) -> Outcome<Typed>
    ensures { outcome_view typed_view result ≡ integer_read (record { least = least; greatest = greatest }) (kept_view value.now) }
{
    match whole_number(value) {
        Some(whole) => {
            if least <= whole && whole <= greatest {
                Outcome::Taken(Typed::Int(whole))
            } else {
                refused_here(alloc)
            }
        }
        None => refused_here(alloc),
    }
}

/// As a text. It takes memory for the copy.
pub fn read_text(alloc: Global, value: &Value) -> Result<Outcome<Typed>, TextFault>
    ensures answer { IfOk result (λ o. outcome_view typed_view o ≡ text_read (kept_view value.now)) }
    ensures memory { IfErr result (λ e. e ≡ TextFault.Memory) }
{
    match value {
        Value::String(text) => {
            let read = copied(text)?;
            Ok(Outcome::Taken(read))
        }
        _ => Ok(refused_here(alloc)),
    }
}

/// As any value. It takes memory for the copy.
pub fn read_any(value: &Value) -> Result<Outcome<Typed>, TextFault>
    ensures answer { IfOk result (λ o. outcome_view typed_view o ≡ taken (any_typed (kept_view value.now))) }
    ensures memory { IfErr result (λ e. e ≡ TextFault.Memory) }
{
    match value.clone() {
        Ok(copy) => Ok(Outcome::Taken(Typed::Any(copy))),
        Err(_) => Err(TextFault::Memory),
    }
}

/// As no value.
pub fn read_unit(alloc: Global, value: &Value) -> Outcome<Typed>
    ensures { outcome_view typed_view result ≡ unit_read (kept_view value.now) }
{
    match value {
        Value::Null => Outcome::Taken(Typed::Unit),
        _ => refused_here(alloc),
    }
}

// A copy of a text, as a typed value.
fn copied(text: &String) -> Result<Typed, TextFault>
    ensures answer { IfOk result (λ x. typed_view x ≡ text_typed (string_bytes text.now)) }
    ensures memory { IfErr result (λ e. e ≡ TextFault.Memory) }
{
    match text.clone() {
        Ok(copy) => Ok(Typed::Text(copy)),
        Err(_) => Err(TextFault::Memory),
    }
}

/// As a text that has the format. It fails where memory runs out, or where the judge of texts failed.
pub fn read_native<T: Texts>(
    alloc: Global,
    texts: &mut T,
    format: Format,
    value: &Value,
) -> Result<Outcome<Typed>, TextFault>
    ensures answer { IfOk result (λ o. outcome_view typed_view o ≡ native_read (T.relations texts.old) format (kept_view value.now)) }
    ensures keeps { T.relations texts.new ≡ T.relations texts.old }
    ensures failed { IsErrOf result TextFault.Failed → Rises (T.faults texts.old) (T.faults texts.new) }
    ensures counts { T.faults texts.old ≤ T.faults texts.new }
{
    match value {
        Value::String(text) => {
            if texts.has_format(format, text)? {
                let read = copied(text)?;
                Ok(Outcome::Taken(read))
            } else {
                Ok(refused_here(alloc))
            }
        }
        _ => Ok(refused_here(alloc)),
    }
}
