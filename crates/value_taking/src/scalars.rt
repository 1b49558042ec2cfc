//! Whether a value is read as a type that asks nothing of its parts.
ghost use Rattle.std.specs.Prelude.{◌≡◌};
ghost use Rattle.serde_json.specs.View.{number_view};
ghost use Rattle.json_value.specs.View.{kept_view, number_value};
ghost use Rattle.model_defs.specs.Layer.{is_boolean as is_boolean_in, is_in_range as is_in_range_in, is_null as is_null_in, is_text as is_text_in};
ghost use Rattle.value_models.specs.TypeView.{type_view};
ghost use Rattle.value_taking.specs.At.{scalar_takes};

use serde_json::{Number, Value};
use value_models::ValueType;

fn is_boolean(value: &Value) -> bool
    ensures { result ≡ is_boolean_in (kept_view value.now) }
{
    match value {
        Value::Bool(_) => true,
        _ => false,
    }
}

fn is_text(value: &Value) -> bool
    ensures { result ≡ is_text_in (kept_view value.now) }
{
    match value {
        Value::String(_) => true,
        _ => false,
    }
}

/// Whether the value is null.
pub(crate) fn is_null(value: &Value) -> bool
    ensures { result ≡ is_null_in (kept_view value.now) }
{
    match value {
        Value::Null => true,
        _ => false,
    }
}

#[tactic(auto, using(crate::proofs::Numbers::whole, crate::proofs::Numbers::no_whole))]
fn is_number_in(least: i128, greatest: i128, number: &Number) -> bool
    ensures { result ≡ is_in_range_in (record { least = least; greatest = greatest }) (number_value (number_view number.now)) }
{
    match number.as_i128() {
        Some(whole) => least <= whole && whole <= greatest,
        None => false,
    }
}

fn is_in_range(least: i128, greatest: i128, value: &Value) -> bool
    ensures { result ≡ is_in_range_in (record { least = least; greatest = greatest }) (kept_view value.now) }
{
    match value {
        Value::Number(number) => is_number_in(least, greatest, number),
        _ => false,
    }
}

/// Whether the value is read as a type that asks nothing of parts and items. No text has a format; any other type refuses it.
pub(crate) fn takes_scalar(ty: &ValueType, value: &Value) -> bool
    ensures { result ≡ scalar_takes (type_view ty.now) (kept_view value.now) }
{
    match ty {
        ValueType::Boolean => is_boolean(value),
        ValueType::Integer { least, greatest } => is_in_range(*least, *greatest, value),
        ValueType::Text => is_text(value),
        ValueType::Any => true,
        ValueType::Unit => is_null(value),
        _ => false,
    }
}
