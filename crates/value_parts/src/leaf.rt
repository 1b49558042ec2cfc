//! Types behind their options and boxes.
ghost use Rattle.std.specs.Prelude.{◌≡◌, ◌≤◌, ◌&&◌, IfErr, IfOk, IsErrOf};
ghost use Rattle.schema_defs.specs.Faults.{Rises};
ghost use Rattle.model_defs.specs.Layer.{is_null as is_null_value};
ghost use Rattle.reading_defs.specs.Reading.{read_map};
ghost use Rattle.json_value.specs.View.{kept_view};
ghost use Rattle.value_models.specs.TypeView.{type_view};
ghost use Rattle.value_models.specs.TypedView.{typed_view};
ghost use Rattle.value_parts.specs.Leaves.{is_optional as is_optional_in, leaf as leaf_in, scalar_read, wrapped as wrapped_in};
ghost use Rattle.value_parts.specs.Seen.{one_view};

use crate::built::some_of;
use crate::outcome::{Outcome, refused_here};
use crate::plain::{read_any, read_boolean, read_integer, read_native, read_text, read_unit};
use schema_texts::{TextFault, Texts};
use serde_json::Value;
use std::alloc::Global;
use value_models::{Typed, ValueType};

/// The type behind options and boxes.
pub fn leaf_of(ty: &ValueType) -> &ValueType
    ensures { type_view result.now ≡ leaf_in (type_view ty.now) }
{
    match ty {
        ValueType::Optional(inner) => leaf_of(inner),
        ValueType::Boxed(inner) => leaf_of(inner),
        _ => ty,
    }
}

/// Whether the type is an option, behind boxes.
fn is_optional(ty: &ValueType) -> bool
    ensures { result ≡ is_optional_in (type_view ty.now) }
{
    match ty {
        ValueType::Optional(_) => true,
        ValueType::Boxed(inner) => is_optional(inner),
        _ => false,
    }
}

/// Whether the value is null and the type an option, behind boxes.
pub fn is_absent(ty: &ValueType, value: &Value) -> bool
    ensures { result ≡ (is_null_value (kept_view value.now) && is_optional_in (type_view ty.now)) }
{
    match value {
        Value::Null => is_optional(ty),
        _ => false,
    }
}

// A present value of the type behind, as one of the type.
fn wrapped(alloc: Global, ty: &ValueType, typed: Typed) -> Result<Typed, TextFault>
    ensures answer { IfOk result (λ x. typed_view x ≡ wrapped_in (type_view ty.now) (typed_view typed)) }
    ensures memory { IfErr result (λ e. e ≡ TextFault.Memory) }
{
    match ty {
        ValueType::Optional(inner) => {
            let within = wrapped(alloc, inner, typed)?;
            let held = some_of(alloc, within)?;
            Ok(held)
        }
        ValueType::Boxed(inner) => {
            let held = wrapped(alloc, inner, typed)?;
            Ok(held)
        }
        _ => Ok(typed),
    }
}

/// What was read as the type behind, as read as the type. It fails where memory runs out.
pub fn as_whole(
    alloc: Global,
    ty: &ValueType,
    read: Outcome<Typed>,
) -> Result<Outcome<Typed>, TextFault>
    ensures answer { IfOk result (λ o. one_view o ≡ read_map (wrapped_in (type_view ty.now)) (one_view read)) }
    ensures memory { IfErr result (λ e. e ≡ TextFault.Memory) }
{
    match read {
        Outcome::Taken(typed) => {
            let whole = wrapped(alloc, ty, typed)?;
            Ok(Outcome::Taken(whole))
        }
        Outcome::Refused(path) => Ok(Outcome::Refused(path)),
        Outcome::Unsound => Ok(Outcome::Unsound),
    }
}

/// A value as a type that asks nothing of parts and items; any other refuses it.
pub fn read_scalar<T: Texts>(
    alloc: Global,
    texts: &mut T,
    ty: &ValueType,
    value: &Value,
) -> Result<Outcome<Typed>, TextFault>
    ensures answer { IfOk result (λ o. one_view o ≡ scalar_read (T.relations texts.old) (type_view ty.now) (kept_view value.now)) }
    ensures keeps { T.relations texts.new ≡ T.relations texts.old }
    ensures failed { IsErrOf result TextFault.Failed → Rises (T.faults texts.old) (T.faults texts.new) }
    ensures counts { T.faults texts.old ≤ T.faults texts.new }
{
    match ty {
        ValueType::Boolean => Ok(read_boolean(alloc, value)),
        ValueType::Integer { least, greatest } => {
            Ok(read_integer(alloc, *least, *greatest, value))
        }
        ValueType::Text => {
            let read = read_text(alloc, value)?;
            Ok(read)
        }
        ValueType::Native(format) => {
            let read = read_native(alloc, texts, *format, value)?;
            Ok(read)
        }
        ValueType::Any => {
            let read = read_any(value)?;
            Ok(read)
        }
        ValueType::Unit => Ok(read_unit(alloc, value)),
        _ => Ok(refused_here(alloc)),
    }
}
