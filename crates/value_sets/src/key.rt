//! A number for a value, which is the same for values that are the same.
ghost use Rattle.std.specs.Prelude.{◌≡◌, string_bytes};
ghost use Rattle.serde_json.specs.View.{items_view, members_view, number_view};
ghost use Rattle.json_value.specs.View.{kept_view, items_of, members_of, number_value};
ghost use Rattle.value_sets.specs.Key.{key_with, item_key, member_key, text_key, joined, size_below};

use serde_json::value::Map;
use serde_json::{Number, Value};

// The number of what comes after what has the number `before`.
fn joined(before: u64, next: u64) -> u64
    ensures { result ≡ joined before next }
{
    before.wrapping_mul(1_099_511_628_211).wrapping_add(next)
}

fn text_key(before: u64, text: &str) -> u64
    ensures { result ≡ text_key before text.now }
{
    let mut key = before;
    for byte in text.as_bytes() {
        key = joined(key, u64::from(*byte));
    }
    key
}

// A size, as far as it goes into 64 bits, as that of each number that JSON is read to does.
fn size_below(size: u128) -> u64
    ensures { result ≡ size_below size }
{
    match u64::try_from(size) {
        Ok(size) => size,
        Err(_) => 0,
    }
}

fn number_key(before: u64, number: &Number) -> u64
    ensures { result ≡ key_with before (number_value (number_view number.now)) }
{
    match number.as_i128() {
        Some(whole) => joined(before, size_below(whole.unsigned_abs())),
        None => joined(before, 1),
    }
}

/// The number of a value after what has the number `before`.
#[cycle(key)]
pub(crate) fn key_with(before: u64, value: &Value) -> u64
    ensures { result ≡ key_with before (kept_view value.now) }
{
    match value {
        Value::Null => joined(before, 2),
        Value::Bool(true) => joined(before, 3),
        Value::Bool(false) => joined(before, 4),
        Value::Number(number) => number_key(before, number),
        Value::String(text) => text_key(joined(before, 5), text),
        Value::Array(items) => item_key(joined(before, 6), items),
        Value::Object(members) => member_key(joined(before, 7), members),
    }
}

#[cycle(key)]
fn item_key(before: u64, items: &Vec<Value>) -> u64
    ensures { result ≡ item_key before (items_of (items_view items.now.items)) }
{
    let mut key = before;
    for item in items.iter() {
        key = key_with(key, item);
    }
    key
}

#[cycle(key)]
fn member_key(before: u64, members: &Map<String, Value>) -> u64
    ensures { result ≡ member_key before (members_of (members_view members.now.entries)) }
{
    let mut key = before;
    for (name, value) in members.iter() {
        key = key_with(text_key(key, name), value);
    }
    key
}
