//! Whether the numbers of a value are those that JSON values have: what reading asks of a value.
#![tactic(auto)]

ghost use Rattle.std.specs.Prelude.{◌≡◌};
ghost use Rattle.serde_json.specs.View.{view, items_view, members_view, number_view};
ghost use Rattle.json_value.specs.View.{value_of, items_of, members_of, number_value};
ghost use Rattle.reading_defs.specs.Proper.{has_json_numbers as value_has, items_have_json_numbers as items_have, members_have_json_numbers as members_have};

use serde_json::value::Map;
use serde_json::{Number, Value};

/// Whether each number in the value is whole, from the least i64 to the greatest u64: what `Module::read` and `Module::judge` ask
/// of a value. It takes no memory.
#[cycle(numbers)]
pub fn has_json_numbers(value: &Value) -> bool
    ensures { result ≡ value_has (value_of (view value.now)) }
{
    match value {
        Value::Number(number) => is_json_number(number),
        Value::Array(items) => all_have(items),
        Value::Object(members) => members_all_have(members),
        _ => true,
    }
}

#[cycle(numbers)]
fn all_have(items: &Vec<Value>) -> bool
    ensures { result ≡ items_have (items_of (items_view items.now.items)) }
{
    for item in items {
        if !has_json_numbers(item) {
            return false;
        }
    }
    true
}

#[cycle(numbers)]
fn members_all_have(members: &Map<String, Value>) -> bool
    ensures { result ≡ members_have (members_of (members_view members.now.entries)) }
{
    for (_, value) in members.iter() {
        if !has_json_numbers(value) {
            return false;
        }
    }
    true
}

#[tactic(auto, using(crate::proofs::Numbers::whole, crate::proofs::Numbers::no_whole))]
fn is_json_number(number: &Number) -> bool
    ensures { result ≡ value_has (number_value (number_view number.now)) }
{
    match number.as_i128() {
        Some(z) => i128::from(i64::MIN) <= z && z <= i128::from(u64::MAX),
        None => false,
    }
}
