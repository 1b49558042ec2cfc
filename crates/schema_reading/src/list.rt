//! What lists of values, of texts and of type names are read as.

ghost use Rattle.std.specs.Prelude.{◌≡◌, ◌∷◌, [], IfOk, option_map, map, string_bytes, unwrap_or};
ghost use Rattle.serde_json.specs.View.{view, items_view, members_view};
ghost use Rattle.json_value.specs.View.{value_of, items_of, kept_view};
ghost use Rattle.schema_defs.specs.Read.{by_value, keyword as word, kept_list, names_of, name_set, pattern_of, texts_in, text_of, type_named, type_of, types_in, types_of};
ghost use Rattle.schema_types.specs.View.{types_view};
ghost use Rattle.schema_reading.specs.Reading.{looked_up};

use crate::keyword::member;
use json_value::is_whole;
use schema_defs::InstanceType;
use schema_types::Types;
use serde_json::Value;
use serde_json::value::Map;
use std::alloc::{AllocError, Global};
use std::collections::BTreeSet;

/// A list of values that have no fraction.
pub(crate) fn values_at(
    alloc: Global,
    members: &Map<String, Value>,
    keyword: &str,
) -> Result<Option<Option<Vec<Value>>>, AllocError>
    ensures { IfOk result (λ o. option_map (option_map (λ v. map kept_view v.items)) o ≡ word keyword.now (by_value kept_list) (looked_up members.now.entries)) }
{
    match member(members, keyword) {
        None => Ok(Some(None)),
        Some(value) => match values(alloc, value)? {
            Some(values) => Ok(Some(Some(values))),
            None => Ok(None),
        },
    }
}

fn values(alloc: Global, value: &Value) -> Result<Option<Vec<Value>>, AllocError>
    ensures { IfOk result (λ o. option_map (λ v. map kept_view v.items) o ≡ kept_list (value_of (view value.now))) }
{
    match value {
        Value::Array(items) => if is_whole(value) {
            Ok(Some(copies(alloc, items)?))
        } else {
            Ok(None)
        },
        _ => Ok(None),
    }
}

fn copies(alloc: Global, values: &Vec<Value>) -> Result<Vec<Value>, AllocError>
    ensures { IfOk result (λ v. map kept_view v.items ≡ map kept_view values.now.items) }
{
    let mut copies = Vec::with_capacity(alloc, values.len())?;
    for value in values {
        copies.push(value.clone()?)?;
    }
    Ok(copies)
}

/// The name of a type, or a list of such names.
pub(crate) fn types_at(
    alloc: Global,
    members: &Map<String, Value>,
    keyword: &str,
) -> Result<Option<Option<Types>>, AllocError>
    ensures { IfOk result (λ o. option_map (option_map types_view) o ≡ word keyword.now (by_value types_of) (looked_up members.now.entries)) }
{
    match member(members, keyword) {
        None => Ok(Some(None)),
        Some(value) => match types(alloc, value)? {
            Some(types) => Ok(Some(Some(types))),
            None => Ok(None),
        },
    }
}

fn types(alloc: Global, value: &Value) -> Result<Option<Types>, AllocError>
    ensures { IfOk result (λ o. option_map types_view o ≡ types_of (value_of (view value.now))) }
{
    match value {
        Value::String(name) => match named_type(name) {
            Some(name) => Ok(Some(Types::One(name))),
            None => Ok(None),
        },
        Value::Array(items) => match type_names(alloc, items)? {
            Some(names) => Ok(Some(Types::Many(names))),
            None => Ok(None),
        },
        _ => Ok(None),
    }
}

fn type_names(alloc: Global, items: &Vec<Value>) -> Result<Option<Vec<InstanceType>>, AllocError>
    ensures { IfOk result (λ o. option_map (λ v. v.items) o ≡ types_in (items_of (items_view items.now.items))) }
{
    let mut names = Vec::with_capacity(alloc, items.len())?;
    for item in items {
        match type_name(item) {
            Some(name) => names.push(name)?,
            None => return Ok(None),
        }
    }
    Ok(Some(names))
}

fn type_name(value: &Value) -> Option<InstanceType>
    ensures { result ≡ type_of (value_of (view value.now)) }
{
    match value {
        Value::String(name) => named_type(name),
        _ => None,
    }
}

fn named_type(name: &str) -> Option<InstanceType>
    ensures { result ≡ type_named name.now }
{
    match name {
        "null" => Some(InstanceType::Null),
        "boolean" => Some(InstanceType::Boolean),
        "object" => Some(InstanceType::Object),
        "array" => Some(InstanceType::Array),
        "number" => Some(InstanceType::Number),
        "string" => Some(InstanceType::Text),
        "integer" => Some(InstanceType::Integer),
        _ => None,
    }
}

/// A pattern, as the list of it alone.
pub(crate) fn patterns_at(
    alloc: Global,
    members: &Map<String, Value>,
    keyword: &str,
) -> Result<Option<Option<Vec<String>>>, AllocError>
    ensures { IfOk result (λ o. option_map (option_map (λ v. map string_bytes v.items)) o ≡ word keyword.now (by_value pattern_of) (looked_up members.now.entries)) }
{
    match member(members, keyword) {
        None => Ok(Some(None)),
        Some(Value::String(text)) => Ok(Some(Some(alone(alloc, text)?))),
        Some(_) => Ok(None),
    }
}

fn alone(alloc: Global, text: &str) -> Result<Vec<String>, AllocError>
    ensures { IfOk result (λ v. map string_bytes v.items ≡ text.now ∷ []) }
{
    let mut texts = Vec::new(alloc);
    texts.push(String::from_str(alloc, text)?)?;
    Ok(texts)
}

/// A list of names, each of them once.
pub(crate) fn names_at(
    alloc: Global,
    members: &Map<String, Value>,
    keyword: &str,
) -> Result<Option<Option<BTreeSet<String>>>, AllocError>
    ensures { IfOk result (λ o. option_map (option_map (λ s. map string_bytes s.keys)) o ≡ word keyword.now (by_value names_of) (looked_up members.now.entries)) }
{
    match member(members, keyword) {
        None => Ok(Some(None)),
        Some(Value::Array(items)) => match texts(alloc, items)? {
            Some(texts) => Ok(Some(Some(set_of(alloc, texts)?))),
            None => Ok(None),
        },
        Some(_) => Ok(None),
    }
}

fn texts(alloc: Global, items: &Vec<Value>) -> Result<Option<Vec<String>>, AllocError>
    ensures { IfOk result (λ o. option_map (λ v. map string_bytes v.items) o ≡ texts_in (items_of (items_view items.now.items))) }
{
    let mut texts = Vec::with_capacity(alloc, items.len())?;
    for item in items {
        match item {
            Value::String(text) => texts.push(String::from_str(alloc, text)?)?,
            _ => return Ok(None),
        }
    }
    Ok(Some(texts))
}

fn set_of(alloc: Global, mut texts: Vec<String>) -> Result<BTreeSet<String>, AllocError>
    ensures { IfOk result (λ s. map string_bytes s.keys ≡ name_set (map string_bytes texts.items)) }
{
    let mut names = BTreeSet::new(alloc);
    while let Some(text) = texts.pop() {
        let _ = names.insert(text)?;
    }
    Ok(names)
}
