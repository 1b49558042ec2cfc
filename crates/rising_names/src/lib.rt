//! In what `serde_json` holds the names of an object rise, byte by byte. No call of it says so for all levels of a value: these
//! do, by a walk that changes nothing and takes no memory.
#![tactic(auto)]

ghost use Rattle.serde_json.specs.View.{view, items_view, members_view};
ghost use Rattle.json_value.specs.View.{value_of, items_of, members_of};
ghost use Rattle.writing_laws.specs.Tables.{IsOrdered, ItemsOrdered, MembersOrdered};

use serde_json::Value;
use serde_json::value::Map;

/// In each object of the value, at each level, the names rise. Takes no memory.
#[cycle(names)]
pub fn names_rise(value: &Value)
    ensures { IsOrdered (value_of (view value.now)) }
{
    match value {
        Value::Array(items) => names_of_each_rise(items),
        Value::Object(members) => names_of_members_rise(members),
        _ => {}
    }
}

/// In each object of each value, at each level, the names rise. Takes no memory.
#[cycle(names)]
pub fn names_of_each_rise(values: &[Value])
    ensures { ItemsOrdered (items_of (items_view values.now)) }
{
    for value in values {
        names_rise(value);
    }
}

#[cycle(names)]
fn names_of_members_rise(members: &Map<String, Value>)
    ensures { MembersOrdered (members_of (members_view members.now.entries)) }
{
    for (_, value) in members.iter() {
        names_rise(value);
    }
}
