//! Structs, and contents of variants, as schemas.
ghost use Rattle.std.specs.Prelude.{◌≡◌, IfOk, map, option_map, true};
ghost use Rattle.json_value.specs.View.{kept_view};
ghost use Rattle.value_models.specs.FieldView.{field_view, fields_view};
ghost use Rattle.value_models.specs.TypeView.{type_view};
ghost use Rattle.value_models.specs.VariantView.{variant_view};
ghost use Rattle.model_defs.specs.Layer.{fields_content, variant_content};
ghost use Rattle.model_defs.specs.Model.{newtype_style};
ghost use Rattle.model_defs.specs.Types.{tuple_type, types};
ghost use Rattle.describe_defs.specs.Plain.{rests_of, types_in};
ghost use Rattle.describe_defs.specs.Written.{closed_value as closed_value_of, content_value as content_value_of, map_value as map_value_of, rest_value as rest_value_of, struct_value as struct_value_of, type_value as value_of_type};
ghost use Rattle.described_values.specs.Seen.{first_of};

use crate::entries::gather_fields;
use crate::objects::object_value;
use described_types::{placed, type_value};
use serde_json::Value;
use std::alloc::{AllocError, Global};
use value_models::{Field, Style, ValueType, Variant};

// What a closed object says of other members.
fn closed_value(closed: bool) -> Option<Value>
    ensures { option_map kept_view result ≡ closed_value_of closed }
{
    if closed {
        return Some(Value::Bool(false));
    }
    None
}

fn map_value(alloc: Global, closed: bool, ty: &ValueType) -> Result<Option<Value>, AllocError>
    ensures { IfOk result (λ v. option_map kept_view v ≡ map_value_of (type_view ty.now) (closed_value_of closed)) }
{
    match ty {
        ValueType::Map(_, inner) => {
            let value = type_value(alloc, inner)?;
            Ok(Some(value))
        }
        _ => Ok(closed_value(closed)),
    }
}

fn first_rest(fields: &[Field]) -> Option<&Field>
    ensures { option_map (λ f. field_view f.now) result ≡ first_of (rests_of (fields_view fields.now)) }
{
    for field in fields {
        if field.is_rest {
            return Some(field);
        }
    }
    None
}

#[tactic(auto, using(crate::proofs::Gathered::by_rest, crate::proofs::Gathered::by_no_rest))]
fn rest_value(alloc: Global, closed: bool, fields: &[Field]) -> Result<Option<Value>, AllocError>
    ensures { IfOk result (λ v. option_map kept_view v ≡ rest_value_of (rests_of (fields_view fields.now)) (closed_value_of closed)) }
{
    match first_rest(fields) {
        Some(field) => {
            let value = map_value(alloc, closed, &field.field_type)?;
            Ok(value)
        }
        None => Ok(closed_value(closed)),
    }
}

/// A struct with named fields.
#[tactic(auto, using(crate::proofs::Gathered::struct_is))]
pub(crate) fn struct_value(
    alloc: Global,
    closed: bool,
    fields: &[Field],
) -> Result<Value, AllocError>
    ensures { IfOk result (λ v. kept_view v ≡ struct_value_of closed (fields_view fields.now)) }
{
    let entries = gather_fields(alloc, false, fields)?;
    let rest = rest_value(alloc, closed, fields)?;
    let value = object_value(alloc, entries, rest)?;
    Ok(value)
}

#[tactic(auto, using(crate::proofs::Gathered::one_more, crate::proofs::Gathered::no_more))]
fn place_values(alloc: Global, fields: &[Field]) -> Result<Vec<Value>, AllocError>
    ensures { IfOk result (λ v. map kept_view v.items ≡ map value_of_type (types_in (fields_view fields.now))) }
{
    let mut values = Vec::new(alloc);
    for field in fields {
        values.push(type_value(alloc, &field.field_type)?)?;
    }
    Ok(values)
}

// Unnamed fields, one after another.
#[tactic(auto, using(crate::proofs::Gathered::places_are))]
fn places_value(alloc: Global, fields: &[Field]) -> Result<Value, AllocError>
    ensures { IfOk result (λ v. kept_view v ≡ value_of_type (tuple_type (types (types_in (fields_view fields.now))))) }
{
    let values = place_values(alloc, fields)?;
    let value = placed(alloc, fields.len() as u64, values)?;
    Ok(value)
}

fn only_value(alloc: Global, fields: &[Field]) -> Result<Value, AllocError>
    ensures { IfOk result (λ v. kept_view v ≡ content_value_of (fields_content true newtype_style (fields_view fields.now))) }
{
    match fields {
        [field] => {
            let value = type_value(alloc, &field.field_type)?;
            Ok(value)
        }
        _ => Ok(Value::Null),
    }
}

/// What a variant holds.
pub(crate) fn content_value(
    alloc: Global,
    closed: bool,
    variant: &Variant,
) -> Result<Value, AllocError>
    ensures { IfOk result (λ v. kept_view v ≡ content_value_of (variant_content closed (variant_view variant.now))) }
{
    match variant.style {
        Style::Struct => {
            let value = struct_value(alloc, closed, variant.fields.fields())?;
            Ok(value)
        }
        Style::Tuple => {
            let value = places_value(alloc, variant.fields.fields())?;
            Ok(value)
        }
        Style::Newtype => {
            let value = only_value(alloc, variant.fields.fields())?;
            Ok(value)
        }
        Style::Unit => Ok(Value::Null),
    }
}
