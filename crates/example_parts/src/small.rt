//! Whether a value is small: its numbers are i64.
ghost use Rattle.std.specs.Prelude.{◌≡◌};
ghost use Rattle.serde_json.specs.View.{items_view, members_view, number_view, view};
ghost use Rattle.json_value.specs.View.{items_of, members_of, number_value, value_of};
ghost use Rattle.example_defs.specs.Built.{is_small as is_small_in, items_are_small as items_are_small_in, members_are_small as members_are_small_in};

use serde_json::value::Map;
use serde_json::{Number, Value};

/// Whether each number in the value is an i64. Its texts and names are UTF-8, and its names rise, as in each value.
#[cycle(small)]
pub(crate) fn is_small(value: &Value) -> bool
    ensures { result ≡ is_small_in (value_of (view value.now)) }
{
    match value {
        Value::Number(number) => is_i64(number),
        Value::Array(items) => items_are_small(items),
        Value::Object(members) => members_are_small(members),
        Value::String(_) => true,
        Value::Null => true,
        Value::Bool(_) => true,
    }
}

#[cycle(small)]
fn items_are_small(items: &Vec<Value>) -> bool
    ensures { result ≡ items_are_small_in (items_of (items_view items.now.items)) }
{
    for item in items {
        if !is_small(item) {
            return false;
        }
    }
    true
}

#[cycle(small)]
fn members_are_small(members: &Map<String, Value>) -> bool
    ensures { result ≡ members_are_small_in (members_of (members_view members.now.entries)) }
{
    for (_, value) in members.iter() {
        if !is_small(value) {
            return false;
        }
    }
    true
}

#[tactic(auto, using(crate::proofs::SmallNumbers::whole, crate::proofs::SmallNumbers::no_whole))]
fn is_i64(number: &Number) -> bool
    ensures { result ≡ is_small_in (number_value (number_view number.now)) }
{
    match number.as_i128() {
        Some(z) => i128::from(i64::MIN) <= z && z <= i128::from(i64::MAX),
        None => false,
    }
}
