//! Whether the numbers of a value are whole.

ghost use Rattle.std.specs.Prelude.{◌≡◌};
ghost use Rattle.serde_json.specs.View.{view, items_view, members_view};
ghost use Rattle.json_value.specs.Value.{is_whole as value_is_whole, all_whole as items_are_whole, members_whole as members_are_whole};
ghost use Rattle.json_value.specs.View.{value_of, items_of, members_of};

use serde_json::Value;
use serde_json::value::Map;

/// Whether each number in the value is an i64 or a u64. Takes no memory.
#[cycle(whole)]
pub fn is_whole(value: &Value) -> bool
    ensures { result ≡ value_is_whole (value_of (view value.now)) }
{
    match value {
        Value::Number(n) => n.as_i128().is_some(),
        Value::Array(items) => all_whole(items),
        Value::Object(members) => members_whole(members),
        _ => true,
    }
}

#[cycle(whole)]
fn all_whole(items: &Vec<Value>) -> bool
    ensures { result ≡ items_are_whole (items_of (items_view items.now.items)) }
{
    for item in items {
        if !is_whole(item) {
            return false;
        }
    }
    true
}

#[cycle(whole)]
fn members_whole(members: &Map<String, Value>) -> bool
    ensures { result ≡ members_are_whole (members_of (members_view members.now.entries)) }
{
    for (_, value) in members.iter() {
        if !is_whole(value) {
            return false;
        }
    }
    true
}
