//! The members of objects, and their names.

ghost use Rattle.std.specs.Prelude.{◌≡◌, ◌&&◌, not, bytes_eq, option_map, Option, Some, None, is_some, codes};
ghost use Rattle.std.specs.List.{list_any};
ghost use Rattle.serde_json.specs.View.{view, members_view};
ghost use Rattle.json_value.specs.Value.{member_at, object};
ghost use Rattle.json_value.specs.View.{value_of, members_of};
ghost use Rattle.schema_faults.specs.Keywords.{are_distinct, has_distinct_names as has_distinct, is_under, names, names_in, shares_name as shares_a_name};

use serde_json::Value;
use serde_json::value::Map;

/// The member of that name.
pub(crate) fn member<'v>(members: &'v Map<String, Value>, name: &str) -> Option<&'v Value>
    ensures { option_map (λ x. value_of (view x.now)) result ≡ member_at name.now (members_of (members_view members.now.entries)) }
{
    members.get(name)
}

/// Whether the value is an object whose names differ, as those of each map do.
pub(crate) fn has_distinct_names(value: &Value) -> bool
    ensures { result ≡ has_distinct (value_of (view value.now)) }
{
    match value {
        Value::Object(members) => are_names_distinct(members),
        _ => false,
    }
}

// The count says that the names rise, so that none stands twice.
fn are_names_distinct(members: &Map<String, Value>) -> bool
    ensures { result ≡ are_distinct (names (members_of (members_view members.now.entries))) }
{
    let _count = members.len();
    true
}

/// Whether a name of the object stands under `$defs` of the root too.
pub(crate) fn shares_name(root: &Map<String, Value>, value: &Value) -> bool
    ensures { result ≡ shares_a_name (members_of (members_view root.now.entries)) (Some (value_of (view value.now))) }
{
    match value {
        Value::Object(definitions) => has_name_under_defs(root, definitions),
        _ => false,
    }
}

fn has_name_under_defs(root: &Map<String, Value>, definitions: &Map<String, Value>) -> bool
    ensures { result ≡ list_any (is_under (codes "$defs") (members_of (members_view root.now.entries))) (names (members_of (members_view definitions.now.entries))) }
{
    for (name, _) in definitions.iter() {
        if defines(root, "$defs", name) {
            return true;
        }
    }
    false
}

/// Whether a definition of that name stands under the keyword.
pub(crate) fn defines(root: &Map<String, Value>, keyword: &str, name: &str) -> bool
    ensures { result ≡ is_under keyword.now (members_of (members_view root.now.entries)) name.now }
{
    match member(root, keyword) {
        Some(Value::Object(definitions)) => has_name(definitions, name),
        _ => false,
    }
}

fn has_name(members: &Map<String, Value>, name: &str) -> bool
    ensures { result ≡ list_any (bytes_eq name.now) (names (members_of (members_view members.now.entries))) }
{
    member(members, name).is_some()
}
