//! The schemas that definitions of a sample have as properties.
ghost use Rattle.std.specs.Prelude.{◌≡◌, ◌∷◌, ◌++◌, [], IfOk, codes, string_bytes};
ghost use Rattle.json_value.specs.Value.{members, object};
ghost use Rattle.json_value.specs.View.{kept_view};
ghost use Rattle.describe_defs.specs.Written.{formatted, nullable_value};
ghost use Rattle.described_types.specs.Seen.{list_of};
ghost use Rattle.schema_defs.specs.Build.{◌≔◌, str, typed};
ghost use Rattle.value_writing.specs.Seen.{kept_members};
ghost use Rattle.sample_inputs.specs.Sample.{closed_value, kind_value as kind_value_of, leads_to, pair_value as pair_value_of, properties_by, sample_name, with_kind, with_owner, with_pair};

use described_types::{list_value, of_kind, placed, text_value};
use serde_json::Value;
use serde_json::value::Map;
use std::alloc::{AllocError, Global};
use value_writing::put_member;

/// A reference to the definition of a number.
pub(crate) fn reference_text(alloc: Global, number: u32) -> Result<String, AllocError>
    ensures { IfOk result (λ s. string_bytes s ≡ codes "#/definitions/" ++ sample_name number) }
{
    format!(in alloc; "#/definitions/S{number}")
}

/// A schema that is such a reference.
pub(crate) fn leading_to(alloc: Global, number: u32) -> Result<Value, AllocError>
    ensures { IfOk result (λ v. kept_view v ≡ leads_to number) }
{
    let text = reference_text(alloc, number)?;
    let mut members = Map::new(alloc);
    put_member(alloc, &mut members, "$ref", Value::String(text))?;
    Ok(Value::Object(members))
}

// One of two texts.
fn kind_value(alloc: Global) -> Result<Value, AllocError>
    ensures { IfOk result (λ v. kept_view v ≡ kind_value_of) }
{
    let first = text_value(alloc, "a")?;
    let second = text_value(alloc, "b")?;
    let listed = list_value(vec![in alloc; first, second]?);
    let kind = text_value(alloc, "string")?;
    let mut members = Map::new(alloc);
    put_member(alloc, &mut members, "type", kind)?;
    put_member(alloc, &mut members, "enum", listed)?;
    Ok(Value::Object(members))
}

// The first definition, or null.
fn owner_value(alloc: Global) -> Result<Value, AllocError>
    ensures { IfOk result (λ v. kept_view v ≡ nullable_value (leads_to 0)) }
{
    let owner = leading_to(alloc, 0)?;
    let null = of_kind(alloc, "null")?;
    let either = list_value(vec![in alloc; owner, null]?);
    let mut members = Map::new(alloc);
    put_member(alloc, &mut members, "anyOf", either)?;
    Ok(Value::Object(members))
}

// A whole number of one byte.
fn byte_value(alloc: Global) -> Result<Value, AllocError>
    ensures { IfOk result (λ v. kept_view v ≡ formatted (codes "uint8") (str "integer")) }
{
    let kind = text_value(alloc, "integer")?;
    let format = text_value(alloc, "uint8")?;
    let mut members = Map::new(alloc);
    put_member(alloc, &mut members, "type", kind)?;
    put_member(alloc, &mut members, "format", format)?;
    Ok(Value::Object(members))
}

// Such a number and a text.
fn pair_value(alloc: Global) -> Result<Value, AllocError>
    ensures { IfOk result (λ v. kept_view v ≡ pair_value_of) }
{
    let first = byte_value(alloc)?;
    let second = of_kind(alloc, "string")?;
    let value = placed(alloc, 2, vec![in alloc; first, second]?)?;
    Ok(value)
}

// A list of texts.
fn tags_value(alloc: Global) -> Result<Value, AllocError>
    ensures { IfOk result (λ v. kept_view v ≡ list_of (typed "string")) }
{
    let item = of_kind(alloc, "string")?;
    let kind = text_value(alloc, "array")?;
    let mut members = Map::new(alloc);
    put_member(alloc, &mut members, "type", kind)?;
    put_member(alloc, &mut members, "items", item)?;
    Ok(Value::Object(members))
}

// The properties that all definitions have.
fn common_properties(alloc: Global, next: Value) -> Result<Map<String, Value>, AllocError>
    ensures { IfOk result (λ m. kept_members m.entries ≡ members ("id" ≔ typed "integer" ∷ "next" ≔ kept_view next ∷ "tags" ≔ list_of (typed "string") ∷ [])) }
{
    let id = of_kind(alloc, "integer")?;
    let tags = tags_value(alloc)?;
    let mut members = Map::new(alloc);
    put_member(alloc, &mut members, "id", id)?;
    put_member(alloc, &mut members, "next", next)?;
    put_member(alloc, &mut members, "tags", tags)?;
    Ok(members)
}

fn kind_properties(alloc: Global, next: Value) -> Result<Map<String, Value>, AllocError>
    ensures { IfOk result (λ m. kept_members m.entries ≡ members (with_kind (kept_view next))) }
{
    let kind = kind_value(alloc)?;
    let mut members = common_properties(alloc, next)?;
    put_member(alloc, &mut members, "kind", kind)?;
    Ok(members)
}

fn owner_properties(alloc: Global, next: Value) -> Result<Map<String, Value>, AllocError>
    ensures { IfOk result (λ m. kept_members m.entries ≡ members (with_owner (kept_view next))) }
{
    let owner = owner_value(alloc)?;
    let mut members = common_properties(alloc, next)?;
    put_member(alloc, &mut members, "owner", owner)?;
    Ok(members)
}

fn pair_properties(alloc: Global, next: Value) -> Result<Map<String, Value>, AllocError>
    ensures { IfOk result (λ m. kept_members m.entries ≡ members (with_pair (kept_view next))) }
{
    let pair = pair_value(alloc)?;
    let mut members = common_properties(alloc, next)?;
    put_member(alloc, &mut members, "pair", pair)?;
    Ok(members)
}

/// The properties of a definition whose number has that rest by 3.
pub(crate) fn properties(
    alloc: Global,
    rest: u32,
    next: Value,
) -> Result<Map<String, Value>, AllocError>
    ensures { IfOk result (λ m. kept_members m.entries ≡ members (properties_by rest (kept_view next))) }
{
    if rest == 0 {
        return kind_properties(alloc, next);
    }
    if rest == 1 {
        return owner_properties(alloc, next);
    }
    pair_properties(alloc, next)
}

/// A closed object that requires `id`.
pub(crate) fn closed_object(
    alloc: Global,
    properties: Map<String, Value>,
) -> Result<Value, AllocError>
    ensures { IfOk result (λ v. kept_view v ≡ closed_value (object (kept_members properties.entries))) }
{
    let kind = text_value(alloc, "object")?;
    let id = text_value(alloc, "id")?;
    let required = list_value(vec![in alloc; id]?);
    let mut members = Map::new(alloc);
    put_member(alloc, &mut members, "type", kind)?;
    put_member(alloc, &mut members, "required", required)?;
    put_member(alloc, &mut members, "properties", Value::Object(properties))?;
    put_member(
        alloc,
        &mut members,
        "additionalProperties",
        Value::Bool(false),
    )?;
    Ok(Value::Object(members))
}
