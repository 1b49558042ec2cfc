//! Kinds of listed values.
ghost use Rattle.std.specs.Prelude.{◌≡◌, map};
ghost use Rattle.std.specs.List.{list_any, list_all};
ghost use Rattle.json_value.specs.Value.{boolean as boolean_value, same as same_value};
ghost use Rattle.json_value.specs.View.{kept_view};
ghost use Rattle.schema_defs.specs.Layer.{is_listed};
ghost use Rattle.row_findings.specs.Given.{given_values_view};
ghost use Rattle.model_defs.specs.Layer.{is_null as null_value};
ghost use Rattle.convert_defs.specs.Scalars.{is_number};
ghost use Rattle.row_findings.specs.Kinds.{is_of_kind, left_out, passes as passes_as, stands as stands_as};

use crate::given::GivenValues;
use json_value::same;
use serde_json::Value;

/// The kinds of values that rows tell apart. An owner is a list or an object; a number is whole.
#[derive(Clone, Copy, PartialEq, Eq)]
pub enum ValueKind {
    Null,
    Boolean,
    Number,
    Text,
    Owner,
}

/// Whether a value is null. It takes no memory.
#[tactic(auto, using(crate::proofs::KindsSeen::null_seen))]
pub fn is_null(value: &Value) -> bool
    ensures { result ≡ null_value (kept_view value.now) }
{
    value.is_null()
}

fn is_whole_number(value: &Value) -> bool
    ensures { result ≡ is_number (kept_view value.now) }
{
    match value {
        Value::Number(number) => number.as_i128().is_some(),
        _ => false,
    }
}

#[tactic(auto, using(crate::proofs::KindsSeen::boolean_seen, crate::proofs::KindsSeen::text_seen, crate::proofs::KindsSeen::owner_seen))]
fn is_of(value: &Value, kind: ValueKind) -> bool
    ensures { result ≡ is_of_kind kind (kept_view value.now) }
{
    match kind {
        ValueKind::Null => is_null(value),
        ValueKind::Boolean => value.is_boolean(),
        ValueKind::Number => is_whole_number(value),
        ValueKind::Text => value.is_string(),
        ValueKind::Owner => value.is_array() || value.is_object(),
    }
}

/// Whether the value is a null where nulls are left out. It takes no memory.
pub fn is_left_out(less_nulls: bool, value: &Value) -> bool
    ensures { result ≡ left_out less_nulls (kept_view value.now) }
{
    less_nulls && is_null(value)
}

fn passes(less_nulls: bool, kind: ValueKind, value: &Value) -> bool
    ensures { result ≡ passes_as less_nulls (is_of_kind kind) (kept_view value.now) }
{
    is_left_out(less_nulls, value) || is_of(value, kind)
}

/// Whether each value is of the kind. It takes no memory.
pub fn all_of(values: GivenValues<'_>, kind: ValueKind) -> bool
    ensures { result ≡ list_all (is_of_kind kind) (given_values_view values.entry) }
{
    all_pass(values.listed, values.less_nulls, kind)
}

fn all_pass(listed: &Vec<Value>, less_nulls: bool, kind: ValueKind) -> bool
    ensures { result ≡ list_all (passes_as less_nulls (is_of_kind kind)) (map kept_view listed.now.items) }
{
    let mut left = listed.as_slice();
    while let Some((value, rest)) = left.split_first() {
        if !passes(less_nulls, kind, value) {
            return false;
        }
        left = rest;
    }
    true
}

fn stands(less_nulls: bool, kind: ValueKind, value: &Value) -> bool
    ensures { result ≡ stands_as less_nulls (is_of_kind kind) (kept_view value.now) }
{
    !is_left_out(less_nulls, value) && is_of(value, kind)
}

/// Whether some value is of the kind. It takes no memory.
pub fn any_of(values: GivenValues<'_>, kind: ValueKind) -> bool
    ensures { result ≡ list_any (is_of_kind kind) (given_values_view values.entry) }
{
    any_stands(values.listed, values.less_nulls, kind)
}

fn any_stands(listed: &Vec<Value>, less_nulls: bool, kind: ValueKind) -> bool
    ensures { result ≡ list_any (stands_as less_nulls (is_of_kind kind)) (map kept_view listed.now.items) }
{
    let mut left = listed.as_slice();
    while let Some((value, rest)) = left.split_first() {
        if stands(less_nulls, kind, value) {
            return true;
        }
        left = rest;
    }
    false
}

fn is_the_value(less_nulls: bool, wanted: &Value, value: &Value) -> bool
    ensures { result ≡ stands_as less_nulls (same_value (kept_view wanted.now)) (kept_view value.now) }
{
    !is_left_out(less_nulls, value) && same(wanted, value)
}

/// Whether the value is listed. It takes no memory.
pub fn lists_value(values: GivenValues<'_>, wanted: &Value) -> bool
    ensures { result ≡ is_listed (kept_view wanted.now) (given_values_view values.entry) }
{
    has_value(values.listed, values.less_nulls, wanted)
}

fn has_value(listed: &Vec<Value>, less_nulls: bool, wanted: &Value) -> bool
    ensures { result ≡ list_any (stands_as less_nulls (same_value (kept_view wanted.now))) (map kept_view listed.now.items) }
{
    let mut left = listed.as_slice();
    while let Some((value, rest)) = left.split_first() {
        if is_the_value(less_nulls, wanted, value) {
            return true;
        }
        left = rest;
    }
    false
}

fn is_the_boolean(less_nulls: bool, wanted: bool, value: &Value) -> bool
    ensures { result ≡ stands_as less_nulls (same_value (boolean_value wanted)) (kept_view value.now) }
{
    !is_left_out(less_nulls, value) && is_boolean(value, wanted)
}

fn is_boolean(value: &Value, wanted: bool) -> bool
    ensures { result ≡ same_value (boolean_value wanted) (kept_view value.now) }
{
    match value {
        Value::Bool(given) => wanted == *given,
        _ => false,
    }
}

/// Whether the boolean is listed. It takes no memory.
pub fn lists_boolean(values: GivenValues<'_>, wanted: bool) -> bool
    ensures { result ≡ is_listed (boolean_value wanted) (given_values_view values.entry) }
{
    has_boolean(values.listed, values.less_nulls, wanted)
}

fn has_boolean(listed: &Vec<Value>, less_nulls: bool, wanted: bool) -> bool
    ensures { result ≡ list_any (stands_as less_nulls (same_value (boolean_value wanted))) (map kept_view listed.now.items) }
{
    let mut left = listed.as_slice();
    while let Some((value, rest)) = left.split_first() {
        if is_the_boolean(less_nulls, wanted, value) {
            return true;
        }
        left = rest;
    }
    false
}
