//! What a schema says of a value by `type`, `enum` and `const` alone.
ghost use Rattle.std.specs.Prelude.{◌≡◌, map, option_map};
ghost use Rattle.std.specs.List.{list_any};
ghost use Rattle.schema_defs.specs.Layer.{if_given, is_kind as has_kind, types_agree, is_listed};
ghost use Rattle.json_value.specs.Value.{same as same_value};
ghost use Rattle.json_value.specs.View.{kept_view};
ghost use Rattle.schema_types.specs.View.{types_view, schema_view};
ghost use Rattle.schema_types.specs.Shallow.{shallow_agrees};

use crate::schema::{Schema, Types};
use json_value::same;
use schema_defs::InstanceType;
use serde_json::Value;

/// Whether the value has a type that `type` names, is one of `enum`, and is the value of `const`, as far as these
/// keywords stand in the schema itself. The schema `true` takes every value, and `false` none. It takes no memory.
pub fn value_validate(schema: &Schema, value: &Value) -> bool
    ensures { result ≡ shallow_agrees (schema_view schema.now) (kept_view value.now) }
{
    match schema {
        Schema::Bool(b) => *b,
        Schema::Object(object) => {
            has_types(&object.types, value)
                && is_enumerated(&object.enum_values, value)
                && is_constant(&object.const_value, value)
        }
    }
}

/// What `type` says. It takes no memory.
pub fn has_types(types: &Option<Types>, value: &Value) -> bool
    ensures { result ≡ if_given (types_agree (kept_view value.now)) (option_map types_view types.now) }
{
    match types {
        None => true,
        Some(Types::One(kind)) => is_kind(value, *kind),
        Some(Types::Many(kinds)) => is_one_of(value, kinds),
    }
}

fn is_one_of(value: &Value, kinds: &Vec<InstanceType>) -> bool
    ensures { result ≡ list_any (has_kind (kept_view value.now)) kinds.now.items }
{
    kinds.iter().any(|kind| is_kind(value, *kind))
}

/// Whether the value has that type; a whole number is of both of its types.
pub fn is_kind(value: &Value, kind: InstanceType) -> bool
    ensures { result ≡ has_kind (kept_view value.now) kind }
{
    match value {
        Value::Null => kind == InstanceType::Null,
        Value::Bool(_) => kind == InstanceType::Boolean,
        Value::Number(number) => match kind {
            InstanceType::Number => true,
            InstanceType::Integer => number.as_i128().is_some(),
            _ => false,
        },
        Value::String(_) => kind == InstanceType::Text,
        Value::Array(_) => kind == InstanceType::Array,
        Value::Object(_) => kind == InstanceType::Object,
    }
}

// What `enum` says.
fn is_enumerated(values: &Option<Vec<Value>>, value: &Value) -> bool
    ensures { result ≡ if_given (is_listed (kept_view value.now)) (option_map (λ v. map kept_view v.items) values.now) }
{
    match values {
        None => true,
        Some(values) => is_among(values, value),
    }
}

/// Whether the value is one of these.
pub fn is_among(values: &Vec<Value>, value: &Value) -> bool
    ensures { result ≡ is_listed (kept_view value.now) (map kept_view values.now.items) }
{
    for other in values {
        if same(value, other) {
            return true;
        }
    }
    false
}

/// What `const` says. It takes no memory.
pub fn is_constant(constant: &Option<Value>, value: &Value) -> bool
    ensures { result ≡ if_given (same_value (kept_view value.now)) (option_map kept_view constant.now) }
{
    match constant {
        None => true,
        Some(constant) => same(value, constant),
    }
}
