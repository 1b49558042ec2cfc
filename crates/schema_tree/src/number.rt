//! Whether the numbers of a value are i64.
ghost use Rattle.std.specs.Prelude.{◌≡◌};
ghost use Rattle.serde_json.specs.View.{view, items_view, members_view, number_view};
ghost use Rattle.json_value.specs.View.{value_of, items_of, members_of, number_value};
ghost use Rattle.schema_tree.specs.Numbers.{holds_i64_alone as value_holds, items_hold_i64_alone as items_hold, members_hold_i64_alone as members_hold, I64AloneHasNoFloat};

use serde_json::value::Map;
use serde_json::{Number, Value};

/// Whether each number in the value is an i64. Takes no memory.
#[cycle(numbers)]
pub fn holds_i64_alone(value: &Value) -> bool
    ensures { result ≡ value_holds (value_of (view value.now)) }
{
    match value {
        Value::Number(number) => is_i64(number),
        Value::Array(items) => all_hold(items),
        Value::Object(members) => members_all_hold(members),
        _ => true,
    }
}

#[cycle(numbers)]
fn all_hold(items: &Vec<Value>) -> bool
    ensures { result ≡ items_hold (items_of (items_view items.now.items)) }
{
    for item in items {
        if !holds_i64_alone(item) {
            return false;
        }
    }
    true
}

#[cycle(numbers)]
fn members_all_hold(members: &Map<String, Value>) -> bool
    ensures { result ≡ members_hold (members_of (members_view members.now.entries)) }
{
    for (_, value) in members.iter() {
        if !holds_i64_alone(value) {
            return false;
        }
    }
    true
}

pub(crate) fn is_i64(number: &Number) -> bool
    ensures { result ≡ value_holds (number_value (number_view number.now)) }
{
    match number.as_i128() {
        Some(z) => i128::from(i64::MIN) <= z && z <= i128::from(i64::MAX),
        None => false,
    }
}

/// A value whose numbers are i64 holds no float.
pub fn i64_alone_has_no_float()
    ensures { I64AloneHasNoFloat }
{}
