//! Schemas with few keywords.
ghost use Rattle.std.specs.Prelude.{◌≡◌, [], ◌∷◌, IfOk, codes};
ghost use Rattle.json_value.specs.View.{kept_view};
ghost use Rattle.describe_defs.specs.Written.{formatted, nullable_value, places_value};
ghost use Rattle.schema_defs.specs.Build.{num};
ghost use Rattle.json_value.specs.Value.{list, text};
ghost use Rattle.describe_defs.specs.Description.{item_reference};
ghost use Rattle.described_types.specs.Seen.{kept_items, list_of, map_of, of_kind, refers_to};

use locations::Location;
use serde_json::value::Map;
use serde_json::{Number, Value};
use std::alloc::{AllocError, Global};
use value_writing::put_member;

/// A text as a value.
pub fn text_value(alloc: Global, written: &str) -> Result<Value, AllocError>
    ensures { IfOk result (λ v. kept_view v ≡ text written.now) }
{
    Ok(Value::String(String::from_str(alloc, written)?))
}

/// `{"type": name}`.
pub fn of_kind(alloc: Global, name: &str) -> Result<Value, AllocError>
    ensures { IfOk result (λ v. kept_view v ≡ of_kind name.now) }
{
    let kind = text_value(alloc, name)?;
    let mut members = Map::new(alloc);
    put_member(alloc, &mut members, "type", kind)?;
    Ok(Value::Object(members))
}

/// A type with a format.
pub(crate) fn with_format(alloc: Global, name: &str, format: &str) -> Result<Value, AllocError>
    ensures { IfOk result (λ v. kept_view v ≡ formatted format.now (text name.now)) }
{
    let kind = text_value(alloc, name)?;
    let format = text_value(alloc, format)?;
    let mut members = Map::new(alloc);
    put_member(alloc, &mut members, "type", kind)?;
    put_member(alloc, &mut members, "format", format)?;
    Ok(Value::Object(members))
}

/// An option of a schema.
pub(crate) fn nullable(alloc: Global, value: Value) -> Result<Value, AllocError>
    ensures { IfOk result (λ v. kept_view v ≡ nullable_value (kept_view value)) }
{
    let null = of_kind(alloc, "null")?;
    let mut members = Map::new(alloc);
    put_member(
        alloc,
        &mut members,
        "anyOf",
        Value::Array(vec![in alloc; value, null]?),
    )?;
    Ok(Value::Object(members))
}

/// A list of what a schema admits.
pub(crate) fn listed(alloc: Global, value: Value) -> Result<Value, AllocError>
    ensures { IfOk result (λ v. kept_view v ≡ list_of (kept_view value)) }
{
    let kind = text_value(alloc, "array")?;
    let mut members = Map::new(alloc);
    put_member(alloc, &mut members, "type", kind)?;
    put_member(alloc, &mut members, "items", value)?;
    Ok(Value::Object(members))
}

/// A map to what a schema admits.
pub(crate) fn mapped(alloc: Global, value: Value) -> Result<Value, AllocError>
    ensures { IfOk result (λ v. kept_view v ≡ map_of (kept_view value)) }
{
    let kind = text_value(alloc, "object")?;
    let mut members = Map::new(alloc);
    put_member(alloc, &mut members, "type", kind)?;
    put_member(alloc, &mut members, "additionalProperties", value)?;
    Ok(Value::Object(members))
}

/// A number as a value.
pub fn size_value(size: u64) -> Value
    ensures { kept_view result ≡ num size }
{
    Value::Number(Number::from(size))
}

/// A list of schemas, as many as there are items.
pub fn placed(alloc: Global, count: u64, values: Vec<Value>) -> Result<Value, AllocError>
    ensures { IfOk result (λ v. kept_view v ≡ places_value count (kept_items values.items)) }
{
    let kind = text_value(alloc, "array")?;
    let mut members = Map::new(alloc);
    put_member(alloc, &mut members, "type", kind)?;
    put_member(alloc, &mut members, "minItems", size_value(count))?;
    put_member(alloc, &mut members, "maxItems", size_value(count))?;
    put_member(alloc, &mut members, "items", list_value(values))?;
    Ok(Value::Object(members))
}

/// A list as a value.
#[tactic(auto, using(crate::proofs::Lists::array_seen))]
pub fn list_value(values: Vec<Value>) -> Value
    ensures { kept_view result ≡ list (kept_items values.items) }
{
    Value::Array(values)
}

// The place of an item among the definitions.
fn place_of(alloc: Global, name: &str) -> Result<Location, AllocError>
    ensures { IfOk result (λ l. l ≡ codes "definitions" ∷ name.now ∷ []) }
{
    let root = Location::root(alloc);
    let definitions = root.child(alloc, "definitions")?;
    let place = definitions.child(alloc, name)?;
    Ok(place)
}

/// The reference to an item.
#[tactic(auto, using(crate::proofs::Lists::reference_text))]
pub(crate) fn reference(alloc: Global, name: &str) -> Result<Value, AllocError>
    ensures { IfOk result (λ v. kept_view v ≡ refers_to (item_reference name.now)) }
{
    let place = place_of(alloc, name)?;
    let text = place.text(alloc)?;
    let mut members = Map::new(alloc);
    put_member(alloc, &mut members, "$ref", Value::String(text))?;
    Ok(Value::Object(members))
}
