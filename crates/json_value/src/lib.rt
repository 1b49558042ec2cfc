//! JSON values as the definitions of this project see them, with equality and whole numbers decided.
#![tactic(auto)]

ghost use Rattle.std.specs.Prelude.{◌≡◌, Decides};
ghost use Rattle.serde_json.specs.View.{view, items_view, members_view, number_view};
ghost use Rattle.json_value.specs.Value.{same as same_value, same_items as same_lists, same_members as same_objects};
ghost use Rattle.json_value.specs.View.{value_of, items_of, members_of, number_value};

mod laws;
mod whole;

pub use laws::{
    children_are_smaller, equality_is_decided, lists_are_items, parts_are_small, small_is_whole,
};
use serde_json::value::Map;
use serde_json::{Number, Value};
pub use whole::is_whole;

/// Whether two values have the same parts. Numbers that are not whole are taken for one another.
#[tactic(auto, using(crate::proofs::Equality::same_Decides))]
pub fn same(a: &Value, b: &Value) -> bool
    ensures value { result ≡ same_value (value_of (view a.now)) (value_of (view b.now)) }
    ensures decides { Decides result (value_of (view a.now) ≡ value_of (view b.now)) }
{
    same_values(a, b)
}

fn same_numbers(a: &Number, b: &Number) -> bool
    ensures { result ≡ same_value (number_value (number_view a.now)) (number_value (number_view b.now)) }
{
    match (a.as_i128(), b.as_i128()) {
        (Some(x), Some(y)) => x == y,
        (None, None) => true,
        _ => false,
    }
}

#[cycle(same)]
fn same_values(a: &Value, b: &Value) -> bool
    ensures { result ≡ same_value (value_of (view a.now)) (value_of (view b.now)) }
{
    match (a, b) {
        (Value::Null, Value::Null) => true,
        (Value::Bool(x), Value::Bool(y)) => *x == *y,
        (Value::Number(x), Value::Number(y)) => same_numbers(x, y),
        (Value::String(x), Value::String(y)) => x.as_str() == y.as_str(),
        (Value::Array(x), Value::Array(y)) => same_items(x, y),
        (Value::Object(x), Value::Object(y)) => same_members(x, y),
        _ => false,
    }
}

#[cycle(same)]
fn same_items(a: &Vec<Value>, b: &Vec<Value>) -> bool
    ensures { result ≡ same_lists (items_of (items_view a.now.items)) (items_of (items_view b.now.items)) }
{
    if a.len() != b.len() {
        return false;
    }
    for i in 0..a.len() {
        if !same_values(&a[i], &b[i]) {
            return false;
        }
    }
    true
}

#[cycle(same)]
fn same_members(a: &Map<String, Value>, b: &Map<String, Value>) -> bool
    ensures { result ≡ same_objects (members_of (members_view a.now.entries)) (members_of (members_view b.now.entries)) }
{
    let mut others = b.iter();
    for (name, x) in a.iter() {
        match others.next() {
            Some((other, y)) => if name.as_str() != other.as_str() || !same_values(x, y) {
                return false;
            },
            None => return false,
        }
    }
    others.next().is_none()
}
