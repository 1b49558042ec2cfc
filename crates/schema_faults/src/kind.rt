//! Whether a value may stand at a keyword.

ghost use Rattle.std.specs.Prelude.{◌≡◌, ◌&&◌, bytes_eq, map};
ghost use Rattle.std.specs.List.{list_any};
ghost use Rattle.serde_json.specs.View.{view, items_view, members_view, number_view};
ghost use Rattle.json_value.specs.View.{value_of, items_of, members_of, number_value};
ghost use Rattle.json_value.specs.Value.{list};
ghost use Rattle.schema_faults.specs.Keywords.{all_texts as are_all_texts, all_type_names as are_all_type_names, is_filled_list as is_a_filled_list, is_flag as is_a_flag, is_list as is_a_list, is_multiple as is_a_multiple, is_number as is_a_number, is_object as is_an_object, is_schema as is_a_schema, is_size as is_a_size, is_text as is_a_text, is_type_name as is_a_type_name, is_type_word as is_a_type_word, lists_texts as lists_but_texts, names_types as names_but_types};

use serde_json::{Number, Value};

pub(crate) const TYPE_NAMES: [&str; 7] = [
    "null", "boolean", "object", "array", "number", "string", "integer",
];

pub(crate) fn is_text(value: &Value) -> bool
    ensures { result ≡ is_a_text (value_of (view value.now)) }
{
    matches!(value, Value::String(_))
}

pub(crate) fn is_flag(value: &Value) -> bool
    ensures { result ≡ is_a_flag (value_of (view value.now)) }
{
    matches!(value, Value::Bool(_))
}

pub(crate) fn is_list(value: &Value) -> bool
    ensures { result ≡ is_a_list (value_of (view value.now)) }
{
    matches!(value, Value::Array(_))
}

pub(crate) fn is_object(value: &Value) -> bool
    ensures { result ≡ is_an_object (value_of (view value.now)) }
{
    matches!(value, Value::Object(_))
}

pub(crate) fn is_schema(value: &Value) -> bool
    ensures { result ≡ is_a_schema (value_of (view value.now)) }
{
    matches!(value, Value::Bool(_) | Value::Object(_))
}

pub(crate) fn is_number(value: &Value) -> bool
    ensures { result ≡ is_a_number (value_of (view value.now)) }
{
    matches!(value, Value::Number(_))
}

pub(crate) fn is_filled_list(value: &Value) -> bool
    ensures { result ≡ is_a_filled_list (value_of (view value.now)) }
{
    match value {
        Value::Array(items) => is_filled(items),
        _ => false,
    }
}

fn is_filled(items: &Vec<Value>) -> bool
    ensures { result ≡ is_a_filled_list (list (items_of (items_view items.now.items))) }
{
    items.iter().next().is_some()
}

pub(crate) fn is_multiple(value: &Value) -> bool
    ensures { result ≡ is_a_multiple (value_of (view value.now)) }
{
    match value {
        Value::Number(number) => is_multiple_number(number),
        _ => false,
    }
}

fn is_multiple_number(number: &Number) -> bool
    ensures { result ≡ is_a_multiple (number_value (number_view number.now)) }
{
    match number.as_i128() {
        Some(z) => 1 <= z,
        None => true,
    }
}

pub(crate) fn is_size(value: &Value) -> bool
    ensures { result ≡ is_a_size (value_of (view value.now)) }
{
    match value {
        Value::Number(number) => is_size_number(number),
        _ => false,
    }
}

fn is_size_number(number: &Number) -> bool
    ensures { result ≡ is_a_size (number_value (number_view number.now)) }
{
    match number.as_i128() {
        Some(z) => 0 <= z && z <= i128::from(u32::MAX),
        None => true,
    }
}

pub(crate) fn lists_texts(value: &Value) -> bool
    ensures { result ≡ lists_but_texts (value_of (view value.now)) }
{
    match value {
        Value::Array(items) => all_texts(items),
        _ => false,
    }
}

fn all_texts(items: &Vec<Value>) -> bool
    ensures { result ≡ are_all_texts (items_of (items_view items.now.items)) }
{
    for item in items {
        if !is_text(item) {
            return false;
        }
    }
    true
}

pub(crate) fn names_types(value: &Value) -> bool
    ensures { result ≡ names_but_types (value_of (view value.now)) }
{
    match value {
        Value::String(name) => is_type_word(name),
        Value::Array(items) => all_type_names(items),
        _ => false,
    }
}

fn all_type_names(items: &Vec<Value>) -> bool
    ensures { result ≡ are_all_type_names (items_of (items_view items.now.items)) }
{
    for item in items {
        if !is_type_name(item) {
            return false;
        }
    }
    true
}

fn is_type_name(value: &Value) -> bool
    ensures { result ≡ is_a_type_name (value_of (view value.now)) }
{
    match value {
        Value::String(name) => is_type_word(name),
        _ => false,
    }
}

fn is_type_word(name: &str) -> bool
    ensures { result ≡ is_a_type_word name.now }
{
    is_among(name, &TYPE_NAMES)
}

fn is_among(name: &str, words: &[&str]) -> bool
    ensures { result ≡ list_any (λ w. bytes_eq name.now w.now) words.now }
{
    for word in words {
        if name == *word {
            return true;
        }
    }
    false
}
