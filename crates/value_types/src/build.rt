//! The type that a reader of values takes a syntax type for.
ghost use Rattle.std.specs.Prelude.{◌≡◌, Some, IfOk, string_bytes};
ghost use Rattle.syntax_trees.specs.View.{ty as ty_view};
ghost use Rattle.type_spellings.specs.Types.{type_of, tuple_of, array_of, number_of};
ghost use Rattle.model_defs.specs.Types.{map_type, types};
ghost use Rattle.value_models.specs.TypeView.{type_view, types_view};
ghost use Rattle.value_types.specs.RowView.{plain_view, held};
ghost use Rattle.value_types.specs.ShapeView.{types_in};

use crate::number::{is_number, number_of};
use crate::rows::{Holder, Plain};
use crate::shape::{Shape, shape_of};
use std::alloc::{AllocError, Global};
use syntax_trees::Ty;
use value_models::ValueType;

fn plain_type(plain: Plain) -> ValueType
    ensures { type_view result ≡ plain_view plain }
{
    match plain {
        Plain::Boolean => ValueType::Boolean,
        Plain::Whole { least, greatest } => ValueType::Integer {
            least: i128::from(least),
            greatest: i128::from(greatest),
        },
        Plain::Signed { below, greatest } => ValueType::Integer {
            least: -i128::from(below),
            greatest: i128::from(greatest),
        },
        Plain::Text => ValueType::Text,
        Plain::Native(format) => ValueType::Native(format),
        Plain::Any => ValueType::Any,
    }
}

fn held_type(alloc: Global, holder: Holder, inner: ValueType) -> Result<ValueType, AllocError>
    ensures { IfOk result (λ t. type_view t ≡ held holder (type_view inner)) }
{
    let inner = Box::new(alloc, inner)?;
    Ok(match holder {
        Holder::Optional => ValueType::Optional(inner),
        Holder::Boxed => ValueType::Boxed(inner),
        Holder::List => ValueType::List(inner),
        Holder::Set => ValueType::Set(inner),
    })
}

fn map_type(alloc: Global, key: ValueType, value: ValueType) -> Result<ValueType, AllocError>
    ensures { IfOk result (λ t. type_view t ≡ map_type (type_view key) (type_view value)) }
{
    let key = Box::new(alloc, key)?;
    let value = Box::new(alloc, value)?;
    Ok(ValueType::Map(key, value))
}

fn tuple_type(parts: Vec<ValueType>) -> ValueType
    ensures { type_view result ≡ tuple_of (types (types_view parts.items)) }
{
    if parts.is_empty() {
        drop(parts);
        return ValueType::Unit;
    }
    ValueType::Tuple(parts)
}

// No memory holds as many items as a u64 can't count.
fn array_type(alloc: Global, inner: ValueType, digits: &str) -> Result<ValueType, AllocError>
    ensures { IfOk result (λ t. type_view t ≡ array_of (type_view inner) (number_of digits.now)) }
{
    let Some(length) = number_of(digits.as_bytes()) else {
        drop(inner);
        return Err(AllocError);
    };
    let inner = Box::new(alloc, inner)?;
    Ok(ValueType::Array(inner, length))
}

/// The type that a reader takes the syntax type for. It fails where memory runs out, and at an array whose length is greater than
/// a u64.
#[cycle(build)]
pub fn value_type(alloc: Global, ty: &Ty) -> Result<ValueType, AllocError>
    ensures { IfOk result (λ t. type_view t ≡ type_of (ty_view ty.now)) }
{
    match shape_of(ty) {
        Shape::Plain(plain) => Ok(plain_type(plain)),
        Shape::Item(name) => Ok(ValueType::Item(String::from_str(alloc, name)?)),
        Shape::Held(holder, inner) => {
            let inner = value_type(alloc, inner)?;
            Ok(held_type(alloc, holder, inner)?)
        }
        Shape::Map(key, value) => {
            let key = value_type(alloc, key)?;
            let value = value_type(alloc, value)?;
            Ok(map_type(alloc, key, value)?)
        }
        Shape::Tuple(parts) => Ok(tuple_type(value_types(alloc, parts)?)),
        Shape::Array(inner, digits) => {
            if !is_number(digits.as_bytes()) {
                return Ok(ValueType::Outside);
            }
            let inner = value_type(alloc, inner)?;
            Ok(array_type(alloc, inner, digits)?)
        }
        Shape::Outside => Ok(ValueType::Outside),
    }
}

#[cycle(build)]
fn value_types(alloc: Global, tys: &[Ty]) -> Result<Vec<ValueType>, AllocError>
    ensures { IfOk result (λ v. types_view v.items ≡ types_in tys.now) }
{
    let mut types = Vec::with_capacity(alloc, tys.len())?;
    for ty in tys {
        types.push(value_type(alloc, ty)?)?;
    }
    Ok(types)
}
