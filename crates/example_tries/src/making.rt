//! Candidates: values that types are likely to read.
use crate::fixed::fixed_text;
use example_parts::{found_field, found_variant, may_be_missing, nearest, present_type};
use serde_json::value::Map;
use serde_json::{Number, Value};
use std::alloc::Global;
use value_models::{Body, Containers, Field, Fields, Style, Tag, ValueType, Variant, Variants};
use value_parts::{Demand, is_unit, type_at};
use value_writing::put_member;

// So many parts may be tried for one candidate, those that come to nothing among them.
const MOST_TRIES: u32 = 100_000;

/// What candidates are made by: the models of items, and the values for those that have to meet a rule.
#[derive(Clone, Copy)]
pub(crate) struct Tries<'a> {
    pub(crate) alloc: Global,
    pub(crate) containers: &'a Containers,
    pub(crate) ruled: &'a Map<String, Value>,
}

// What the candidate of a type is made of.
#[derive(Clone, Copy)]
enum Parts<'a> {
    // No other candidate.
    Leaf,
    // That of another type.
    Same(&'a ValueType),
    // So many, one after another.
    Places(Demand<'a>, u64),
    // That of the item of that name.
    Item(&'a str),
}

fn parts_of(ty: &ValueType) -> Parts<'_> {
    match ty {
        ValueType::Boxed(inner) => Parts::Same(inner),
        ValueType::Tuple(types) => Parts::Places(Demand::Types(types), types.len() as u64),
        ValueType::Array(inner, count) => Parts::Places(Demand::Each(inner), *count),
        ValueType::Item(name) => Parts::Item(name),
        _ => Parts::Leaf,
    }
}

fn text_value(alloc: Global, text: &str) -> Option<Value> {
    Some(Value::String(String::from_str(alloc, text).ok()?))
}

/// The candidate of a type that holds no other: false, the number nearest to 0, the empty text, a text of the format, an empty
/// list or map, else null. A type that holds others has none.
pub(crate) fn leaf_value(alloc: Global, ty: &ValueType) -> Option<Value> {
    match ty {
        ValueType::Boolean => Some(Value::Bool(false)),
        ValueType::Integer { least, greatest } => {
            Some(Value::Number(Number::from_i128(nearest(*least, *greatest))?))
        }
        ValueType::Text => text_value(alloc, ""),
        ValueType::Native(format) => text_value(alloc, fixed_text(*format)),
        ValueType::Any | ValueType::Unit | ValueType::Optional(_) => Some(Value::Null),
        ValueType::List(_) | ValueType::Set(_) => Some(Value::Array(Vec::new(alloc))),
        ValueType::Map(_, _) => Some(Value::Object(Map::new(alloc))),
        _ => None,
    }
}

// ---- variants (serde.rs/enum-representations)

// The members of an object; of any other value none.
fn members_of(alloc: Global, contents: Option<Value>) -> Map<String, Value> {
    match contents {
        Some(Value::Object(members)) => members,
        _ => Map::new(alloc),
    }
}

// The value of a variant of that name, with its contents where it is no unit.
fn tagged(alloc: Global, tag: &Tag, name: &str, contents: Option<Value>) -> Option<Value> {
    let mut members = Map::new(alloc);
    match tag {
        Tag::Untagged => return Some(contents.unwrap_or(Value::Null)),
        Tag::External => {
            let Some(value) = contents else {
                return text_value(alloc, name);
            };
            put_member(alloc, &mut members, name, value).ok()?;
        }
        Tag::Internal(tag) => {
            members = members_of(alloc, contents);
            put_member(alloc, &mut members, tag, text_value(alloc, name)?).ok()?;
        }
        Tag::Adjacent(tag, content) => {
            if let Some(value) = contents {
                put_member(alloc, &mut members, content, value).ok()?;
            }
            put_member(alloc, &mut members, tag, text_value(alloc, name)?).ok()?;
        }
    }
    Some(Value::Object(members))
}

// ---- candidates

/// The first candidate of a type that is made within one of so many levels. The values of fewer levels come first, as a
/// variant that holds its own enum would be taken down to the last level.
pub(crate) fn first_made(tries: &Tries<'_>, ty: &ValueType, levels: &[usize]) -> Option<Value> {
    for left in levels {
        let mut parts = MOST_TRIES;
        let made = type_made(tries, *left, &mut parts, ty);
        if made.is_some() {
            return made;
        }
    }
    None
}

// Each way round leads through here, so that here levels and parts are counted.
#[cycle(making)]
fn type_made(tries: &Tries<'_>, left: usize, parts: &mut u32, ty: &ValueType) -> Option<Value> {
    if left == 0 {
        return None;
    }
    if *parts == 0 {
        return None;
    }
    *parts -= 1;
    match parts_of(ty) {
        Parts::Leaf => leaf_value(tries.alloc, ty),
        Parts::Same(inner) => type_made(tries, left - 1, parts, inner),
        Parts::Places(demand, count) => places_made(tries, left - 1, parts, demand, count),
        Parts::Item(name) => item_made(tries, left - 1, parts, name),
    }
}

// A list with so many candidates.
#[cycle(making)]
fn places_made(
    tries: &Tries<'_>,
    left: usize,
    parts: &mut u32,
    demand: Demand<'_>,
    count: u64,
) -> Option<Value> {
    let mut values = Vec::new(tries.alloc);
    for place in 0..count {
        let ty = type_at(demand, place as usize)?;
        let value = type_made(tries, left, parts, ty)?;
        values.push(value).ok()?;
    }
    Some(Value::Array(values))
}

#[cycle(making)]
fn item_made(tries: &Tries<'_>, left: usize, parts: &mut u32, name: &str) -> Option<Value> {
    let container = tries.containers.named(name)?;
    if container.try_from {
        return tries.ruled.get(name)?.clone().ok();
    }
    match &container.body {
        Body::Struct(style, fields) => content_made(tries, left, parts, *style, fields),
        Body::Enum(tag, variants) => enum_made(tries, left, parts, tag, variants),
    }
}

#[cycle(making)]
fn content_made(
    tries: &Tries<'_>,
    left: usize,
    parts: &mut u32,
    style: Style,
    fields: &Fields,
) -> Option<Value> {
    let list = fields.fields();
    match style {
        Style::Struct => fields_made(tries, left, parts, fields, list),
        Style::Tuple => { places_made(tries, left, parts, Demand::Fields(list), list.len() as u64) }
        Style::Newtype => type_made(tries, left, parts, type_at(Demand::Fields(list), 0)?),
        Style::Unit => None,
    }
}

// The members of the fields that must be present.
#[cycle(making)]
fn fields_made(
    tries: &Tries<'_>,
    left: usize,
    parts: &mut u32,
    fields: &Fields,
    list: &[Field],
) -> Option<Value> {
    let mut members = Map::new(tries.alloc);
    for (place, field) in list.iter().enumerate() {
        if !field.is_rest && !may_be_missing(tries.containers, field) {
            let name = found_field(fields, place)?;
            let value = type_made(tries, left, parts, present_type(field)?)?;
            put_member(tries.alloc, &mut members, name, value).ok()?;
        }
    }
    Some(Value::Object(members))
}

// The first variant that is made.
#[cycle(making)]
fn enum_made(
    tries: &Tries<'_>,
    left: usize,
    parts: &mut u32,
    tag: &Tag,
    variants: &Variants,
) -> Option<Value> {
    for (place, variant) in variants.variants().iter().enumerate() {
        let name = found_variant(variants, place).unwrap_or(&variant.serialize_name);
        let made = variant_made(tries, left, parts, tag, name, variant);
        if made.is_some() {
            return made;
        }
    }
    None
}

#[cycle(making)]
fn variant_made(
    tries: &Tries<'_>,
    left: usize,
    parts: &mut u32,
    tag: &Tag,
    name: &str,
    variant: &Variant,
) -> Option<Value> {
    if is_unit(variant) {
        return tagged(tries.alloc, tag, name, None);
    }
    let contents = content_made(tries, left, parts, variant.style, &variant.fields)?;
    tagged(tries.alloc, tag, name, Some(contents))
}
