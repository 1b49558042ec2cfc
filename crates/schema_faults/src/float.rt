//! Numbers that aren't whole, in the keywords of a schema.

ghost use Rattle.std.specs.Prelude.{◌≡◌, map};
ghost use Rattle.std.specs.List.{list_any, list_all};
ghost use Rattle.serde_json.specs.View.{view, items_view, members_view};
ghost use Rattle.json_value.specs.Value.{is_among, member_at, same, text};
ghost use Rattle.json_value.specs.View.{value_of, items_of, members_of};
ghost use Rattle.schema_faults.specs.Keywords.{is_fraction as is_a_fraction};
ghost use Rattle.schema_faults.specs.Faults.{if_present, is_float as is_a_float, lists_all_types as lists_all, names_number as names_a_number, some_keyword};
ghost use Rattle.schema_faults.specs.Table.{row_of};

use crate::keyword::{Holds, KEYWORDS};
use crate::kind::TYPE_NAMES;
use crate::members::member;
use json_value::is_whole;
use serde_json::Value;
use serde_json::value::Map;

/// Whether a keyword of the schema names the type `number`, or holds a number that isn't whole.
pub(crate) fn has_float(schema: &Value) -> bool
    ensures { result ≡ some_keyword is_a_float (value_of (view schema.now)) }
{
    match schema {
        Value::Object(members) => has_float_among(members, &KEYWORDS),
        _ => false,
    }
}

fn has_float_among(members: &Map<String, Value>, rows: &[(&str, Holds)]) -> bool
    ensures { result ≡ list_any (λ r. if_present (is_a_float r.1) (member_at r.0 (members_of (members_view members.now.entries)))) (map row_of rows.now) }
{
    for (keyword, holds) in rows {
        if has_float_at(members, keyword, *holds) {
            return true;
        }
    }
    false
}

fn has_float_at(members: &Map<String, Value>, keyword: &str, holds: Holds) -> bool
    ensures { result ≡ if_present (is_a_float holds) (member_at keyword.now (members_of (members_view members.now.entries))) }
{
    match member(members, keyword) {
        Some(value) => is_float(holds, value),
        None => false,
    }
}

fn is_float(holds: Holds, value: &Value) -> bool
    ensures { result ≡ is_a_float holds (value_of (view value.now)) }
{
    match holds {
        Holds::TypeNames => names_number(value),
        Holds::Number | Holds::Multiple | Holds::Size => is_fraction(value),
        Holds::Anything | Holds::Values => !is_whole(value),
        _ => false,
    }
}

fn is_fraction(value: &Value) -> bool
    ensures { result ≡ is_a_fraction (value_of (view value.now)) }
{
    match value {
        Value::Number(number) => number.as_i128().is_none(),
        _ => false,
    }
}

// In a list of all seven names `number` says nothing.
fn names_number(value: &Value) -> bool
    ensures { result ≡ names_a_number (value_of (view value.now)) }
{
    match value {
        Value::String(name) => name.as_str() == "number",
        Value::Array(items) => lists(items, "number") && !lists_all_types(items),
        _ => false,
    }
}

fn lists_all_types(items: &Vec<Value>) -> bool
    ensures { result ≡ lists_all (items_of (items_view items.now.items)) }
{
    lists_each(items, &TYPE_NAMES)
}

fn lists_each(items: &Vec<Value>, names: &[&str]) -> bool
    ensures { result ≡ list_all (λ n. is_among (text n.now) (items_of (items_view items.now.items))) names.now }
{
    for name in names {
        if !lists(items, name) {
            return false;
        }
    }
    true
}

fn lists(items: &Vec<Value>, name: &str) -> bool
    ensures { result ≡ is_among (text name.now) (items_of (items_view items.now.items)) }
{
    for item in items {
        if is_text_of(name, item) {
            return true;
        }
    }
    false
}

fn is_text_of(name: &str, value: &Value) -> bool
    ensures { result ≡ same (text name.now) (value_of (view value.now)) }
{
    match value {
        Value::String(text) => name == text.as_str(),
        _ => false,
    }
}
