//! In what `serde_json` holds the names of an object differ. No call of it says so for all levels of a value: these do, by a
//! walk that changes nothing and takes no memory.
#![tactic(auto)]

ghost use Rattle.serde_json.specs.View.{view, items_view, members_view};
ghost use Rattle.json_value.specs.View.{value_of, items_of, members_of};
ghost use Rattle.distinct_names.specs.Names.{NamesDiffer, NamesOfItemsDiffer, MembersDiffer};

use serde_json::Value;
use serde_json::value::Map;

/// In each object of the value, at each level, no name stands twice. Takes no memory.
#[cycle(names)]
pub fn names_differ(value: &Value)
    ensures { NamesDiffer (value_of (view value.now)) }
{
    match value {
        Value::Array(items) => names_of_each_differ(items),
        Value::Object(members) => names_of_members_differ(members),
        _ => {}
    }
}

/// In each object of each value, at each level, no name stands twice. Takes no memory.
#[cycle(names)]
pub fn names_of_each_differ(values: &[Value])
    ensures { NamesOfItemsDiffer (items_of (items_view values.now)) }
{
    for value in values {
        names_differ(value);
    }
}

#[cycle(names)]
fn names_of_members_differ(members: &Map<String, Value>)
    ensures { MembersDiffer (members_of (members_view members.now.entries)) }
{
    for (_, value) in members.iter() {
        names_differ(value);
    }
}
