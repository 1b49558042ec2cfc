//! Single keywords: types, nulls and texts.
ghost use Rattle.std.specs.Prelude.{◌≡◌, None, Some, map, option_map};
ghost use Rattle.std.specs.List.{list_all};
ghost use Rattle.json_value.specs.View.{kept_view};
ghost use Rattle.schema_types.specs.View.{types_view, schema_view};
ghost use Rattle.enum_defs.specs.Words.{same_type as same_type_of, has_type as has_type_of, is_null as is_null_value, as_text as text_in};
ghost use Rattle.enum_defs.specs.Shapes.{null_by, is_null_schema as is_null_schema_of, text_by as text_by_of, may_be_text as may_be_text_of, holds_text_at_most as holds_text_at_most_of, held_text as held_text_of, constant_text as constant_text_of};

use schema_defs::InstanceType;
use schema_types::{Schema, Types};
use serde_json::Value;

fn same_type(wanted: InstanceType, kind: InstanceType) -> bool
    ensures { result ≡ same_type_of wanted kind }
{
    wanted == kind
}

// Whether `type` is that one name.
pub(crate) fn has_type(types: &Option<Types>, wanted: InstanceType) -> bool
    ensures { result ≡ has_type_of wanted (option_map types_view types.now) }
{
    match types {
        None => false,
        Some(Types::One(kind)) => same_type(wanted, *kind),
        Some(Types::Many(_)) => false,
    }
}

pub(crate) fn may_be_text(types: &Option<Types>) -> bool
    ensures { result ≡ may_be_text_of (option_map types_view types.now) }
{
    types.is_none() || has_type(types, InstanceType::Text)
}

// ---- null

#[tactic(auto, using(crate::proofs::Seen::null_seen))]
fn is_null(value: &Value) -> bool
    ensures { result ≡ is_null_value (kept_view value.now) }
{
    value.is_null()
}

fn are_null(values: &Vec<Value>) -> bool
    ensures { result ≡ list_all is_null_value (map kept_view values.now.items) }
{
    let mut left = values.as_slice();
    while let Some((value, rest)) = left.split_first() {
        if !is_null(value) {
            return false;
        }
        left = rest;
    }
    true
}

/// Whether each of the types is null. It takes no memory.
pub fn are_null_types(kinds: &Vec<InstanceType>) -> bool
    ensures { result ≡ list_all (same_type_of InstanceType.Null) kinds.now.items }
{
    kinds
        .iter()
        .all(|kind| same_type(InstanceType::Null, *kind))
}

fn says_null(types: &Option<Types>, constant: &Option<Value>, values: &Option<Vec<Value>>) -> bool
    ensures { result ≡ null_by (option_map types_view types.now) (option_map kept_view constant.now) (option_map (λ v. map kept_view v.items) values.now) }
{
    match types {
        Some(Types::One(kind)) => same_type(InstanceType::Null, *kind),
        Some(Types::Many(kinds)) => are_null_types(kinds),
        None => match constant {
            Some(value) => is_null(value),
            None => match values {
                Some(values) => are_null(values),
                None => false,
            },
        },
    }
}

/// Whether a schema is a null schema: it has the type null, or a list of types that are all null; or without a type the
/// constant null; or without both an `enum` of nulls alone, the empty list included. It takes no memory.
pub fn is_null_schema(schema: &Schema) -> bool
    ensures { result ≡ is_null_schema_of (schema_view schema.now) }
{
    match schema {
        Schema::Bool(_) => false,
        Schema::Object(object) => {
            says_null(&object.types, &object.const_value, &object.enum_values)
        }
    }
}

// ---- texts

#[tactic(auto, using(crate::proofs::Seen::text_seen))]
pub(crate) fn as_text(value: &Value) -> Option<&str>
    ensures { option_map (λ t. t.now) result ≡ text_in (kept_view value.now) }
{
    value.as_str()
}

fn only_text(values: &Vec<Value>) -> Option<&str>
    ensures { option_map (λ t. t.now) result ≡ text_by_of None (Some (map kept_view values.now.items)) }
{
    match values.as_slice() {
        [value] => as_text(value),
        _ => None,
    }
}

fn text_by<'s>(constant: &'s Option<Value>, values: &'s Option<Vec<Value>>) -> Option<&'s str>
    ensures { option_map (λ t. t.now) result ≡ text_by_of (option_map kept_view constant.now) (option_map (λ v. map kept_view v.items) values.now) }
{
    match constant {
        Some(value) => match values {
            None => as_text(value),
            Some(_) => None,
        },
        None => match values {
            Some(values) => only_text(values),
            None => None,
        },
    }
}

fn holds_text_at_most(schema: &Schema) -> bool
    ensures { result ≡ holds_text_at_most_of (schema_view schema.now) }
{
    match schema {
        Schema::Bool(_) => false,
        Schema::Object(object) => {
            may_be_text(&object.types)
                && (object.format.is_none() && object.number.is_none() && object.string.is_none())
                && object.reference.is_none()
                && object.subschemas.is_none()
                && object.array.is_none()
                && object.object.is_none()
        }
    }
}

fn held_text(schema: &Schema) -> Option<&str>
    ensures { option_map (λ t. t.now) result ≡ held_text_of (schema_view schema.now) }
{
    match schema {
        Schema::Bool(_) => None,
        Schema::Object(object) => text_by(&object.const_value, &object.enum_values),
    }
}

/// The text of a schema that holds one text, by `const` or by an `enum` of it alone, and says nothing else but the type
/// of texts and annotations. It takes no memory.
pub fn constant_text(schema: &Schema) -> Option<&str>
    ensures { option_map (λ t. t.now) result ≡ constant_text_of (schema_view schema.now) }
{
    if holds_text_at_most(schema) {
        held_text(schema)
    } else {
        None
    }
}
