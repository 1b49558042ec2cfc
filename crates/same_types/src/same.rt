//! Whether two types are the same, and all that they hold.
ghost use Rattle.std.specs.Prelude.{◌≡◌};
ghost use Rattle.model_defs.specs.Types.{option_type, boxed_type, vec_type, set_type, tuple_type, array_type, types};
ghost use Rattle.value_models.specs.TypeView.{type_view, types_view};
ghost use Rattle.container_defs.specs.Forms.{same_type, same_types};

use crate::leaf::{
    is_any, is_boolean, is_integer, is_item, is_native, is_outside, is_text, is_unit,
};
use value_models::ValueType;

/// Whether the types are the same; a type that no reader knows is the same as none. It takes no memory.
#[cycle(same)]
pub fn is_same(a: &ValueType, b: &ValueType) -> bool
    ensures { result ≡ same_type (type_view a.now) (type_view b.now) }
{
    match a {
        ValueType::Boolean => is_boolean(b),
        ValueType::Integer { least, greatest } => is_integer(b, *least, *greatest),
        ValueType::Text => is_text(b),
        ValueType::Native(format) => is_native(b, *format),
        ValueType::Any => is_any(b),
        ValueType::Unit => is_unit(b),
        ValueType::Optional(inner) => is_optional(inner, b),
        ValueType::Boxed(inner) => is_boxed(inner, b),
        ValueType::List(inner) => is_list(inner, b),
        ValueType::Set(inner) => is_set(inner, b),
        ValueType::Map(key, value) => match b {
            ValueType::Map(name, its) => is_same(key, name) && is_same(value, its),
            _ => false,
        },
        ValueType::Tuple(parts) => is_tuple(parts, b),
        ValueType::Array(inner, length) => is_array(inner, *length, b),
        ValueType::Item(name) => is_item(b, name),
        ValueType::Outside => is_outside(b),
    }
}

#[cycle(same)]
fn is_optional(inner: &ValueType, other: &ValueType) -> bool
    ensures { result ≡ same_type (option_type (type_view inner.now)) (type_view other.now) }
{
    match other {
        ValueType::Optional(its) => is_same(inner, its),
        _ => false,
    }
}

#[cycle(same)]
fn is_boxed(inner: &ValueType, other: &ValueType) -> bool
    ensures { result ≡ same_type (boxed_type (type_view inner.now)) (type_view other.now) }
{
    match other {
        ValueType::Boxed(its) => is_same(inner, its),
        _ => false,
    }
}

#[cycle(same)]
fn is_list(inner: &ValueType, other: &ValueType) -> bool
    ensures { result ≡ same_type (vec_type (type_view inner.now)) (type_view other.now) }
{
    match other {
        ValueType::List(its) => is_same(inner, its),
        _ => false,
    }
}

#[cycle(same)]
fn is_set(inner: &ValueType, other: &ValueType) -> bool
    ensures { result ≡ same_type (set_type (type_view inner.now)) (type_view other.now) }
{
    match other {
        ValueType::Set(its) => is_same(inner, its),
        _ => false,
    }
}

#[cycle(same)]
fn is_tuple(parts: &[ValueType], other: &ValueType) -> bool
    ensures { result ≡ same_type (tuple_type (types (types_view parts.now))) (type_view other.now) }
{
    match other {
        ValueType::Tuple(its) => are_same(parts, its),
        _ => false,
    }
}

#[cycle(same)]
fn is_array(inner: &ValueType, length: u64, other: &ValueType) -> bool
    ensures { result ≡ same_type (array_type (type_view inner.now) length) (type_view other.now) }
{
    match other {
        ValueType::Array(its, number) => is_same(inner, its) && length == *number,
        _ => false,
    }
}

#[cycle(same)]
#[tactic(auto, using(crate::proofs::Parts::of_other_lengths, crate::proofs::Parts::same_turn, crate::proofs::Parts::other_turn, crate::proofs::Parts::parts_end))]
fn are_same(a: &[ValueType], b: &[ValueType]) -> bool
    ensures { result ≡ same_types (types (types_view a.now)) (types (types_view b.now)) }
{
    if a.len() != b.len() {
        return false;
    }
    for i in 0..a.len() {
        if !is_same(&a[i], &b[i]) {
            return false;
        }
    }
    true
}
