//! The syntax type that a type of a reader is taken for.
ghost use Rattle.std.specs.Prelude.{◌≡◌, IfOk};
ghost use Rattle.syntax_trees.specs.View.{ty as ty_view};
ghost use Rattle.type_spellings.specs.Types.{type_of};
ghost use Rattle.model_defs.specs.Types.{outside_type};
ghost use Rattle.value_models.specs.TypeView.{type_view};

use same_types::is_same;
use std::alloc::{AllocError, Global};
use syntax_trees::{Expr, Ty};
use token_trees::{Lit, Literal, Span};
use type_trees::{
    IntegerName, any_ty, boolean_ty, boxed_ty, integer_ty, lone, map_ty, native_ty, no_arguments,
    option_ty, rooted, set_ty, text_ty, tuple_ty, unit_ty, vec_ty,
};
use value_models::ValueType;
use value_types::{Holder, value_type};

fn unsigned_name(greatest: i128) -> Option<IntegerName> {
    if greatest == 255 {
        Some(IntegerName::U8)
    } else if greatest == 65535 {
        Some(IntegerName::U16)
    } else if greatest == 4294967295 {
        Some(IntegerName::U32)
    } else if greatest == 18446744073709551615 {
        Some(IntegerName::U64)
    } else {
        None
    }
}

fn nonzero_name(greatest: i128) -> Option<IntegerName> {
    if greatest == 255 {
        Some(IntegerName::NonZeroU8)
    } else if greatest == 65535 {
        Some(IntegerName::NonZeroU16)
    } else if greatest == 4294967295 {
        Some(IntegerName::NonZeroU32)
    } else if greatest == 18446744073709551615 {
        Some(IntegerName::NonZeroU64)
    } else {
        None
    }
}

fn signed_name(greatest: i128) -> Option<IntegerName> {
    if greatest == 127 {
        Some(IntegerName::I8)
    } else if greatest == 32767 {
        Some(IntegerName::I16)
    } else if greatest == 2147483647 {
        Some(IntegerName::I32)
    } else if greatest == 9223372036854775807 {
        Some(IntegerName::I64)
    } else {
        None
    }
}

fn integer_name(least: i128, greatest: i128) -> Option<IntegerName> {
    if least == 0 {
        unsigned_name(greatest)
    } else if least == 1 {
        nonzero_name(greatest)
    } else {
        signed_name(greatest)
    }
}

// Types of readers have the ranges of Rust's integers alone.
fn integer(alloc: Global, least: i128, greatest: i128) -> Result<Ty, AllocError> {
    match integer_name(least, greatest) {
        Some(name) => integer_ty(alloc, name),
        None => Err(AllocError),
    }
}

fn array(alloc: Global, inner: Ty, length: u64) -> Result<Ty, AllocError> {
    let digits = Literal {
        lit: Lit::Int {
            digits: length.to_string(alloc)?,
        },
        span: Span::call_site(),
    };
    let length = Box::new(alloc, Expr::Lit(digits))?;
    let inner = Box::new(alloc, inner)?;
    Ok(Ty::Array(inner, length))
}

// A type that no reader knows.
#[tactic(auto, using(crate::proofs::ReadBack::outside_spelled))]
pub(crate) fn outside(alloc: Global) -> Result<Ty, AllocError>
    ensures { IfOk result (λ t. type_of (ty_view t) ≡ outside_type) }
{
    let ty = rooted(alloc, &[], "Outside", no_arguments())?;
    Ok(ty)
}

fn held(alloc: Global, holder: Holder, inner: Ty) -> Result<Ty, AllocError> {
    match holder {
        Holder::Optional => option_ty(alloc, inner),
        Holder::Boxed => boxed_ty(alloc, inner),
        Holder::List => vec_ty(alloc, inner),
        Holder::Set => set_ty(alloc, inner),
    }
}

#[cycle(spelling)]
fn proposed(alloc: Global, ty: &ValueType) -> Result<Ty, AllocError> {
    match ty {
        ValueType::Boolean => boolean_ty(alloc),
        ValueType::Integer { least, greatest } => integer(alloc, *least, *greatest),
        ValueType::Text => text_ty(alloc),
        ValueType::Native(format) => native_ty(alloc, *format),
        ValueType::Any => any_ty(alloc),
        ValueType::Unit => Ok(unit_ty(alloc)),
        ValueType::Optional(inner) => proposed_held(alloc, Holder::Optional, inner),
        ValueType::Boxed(inner) => proposed_held(alloc, Holder::Boxed, inner),
        ValueType::List(inner) => proposed_held(alloc, Holder::List, inner),
        ValueType::Set(inner) => proposed_held(alloc, Holder::Set, inner),
        ValueType::Map(key, value) => {
            let key = proposed(alloc, key)?;
            let value = proposed(alloc, value)?;
            map_ty(alloc, key, value)
        }
        ValueType::Tuple(parts) => proposed_tuple(alloc, parts),
        ValueType::Array(inner, length) => proposed_array(alloc, inner, *length),
        ValueType::Item(name) => lone(alloc, name),
        ValueType::Outside => outside(alloc),
    }
}

#[cycle(spelling)]
fn proposed_held(alloc: Global, holder: Holder, inner: &ValueType) -> Result<Ty, AllocError> {
    let inner = proposed(alloc, inner)?;
    held(alloc, holder, inner)
}

#[cycle(spelling)]
fn proposed_array(alloc: Global, inner: &ValueType, length: u64) -> Result<Ty, AllocError> {
    let inner = proposed(alloc, inner)?;
    array(alloc, inner, length)
}

#[cycle(spelling)]
fn proposed_tuple(alloc: Global, parts: &[ValueType]) -> Result<Ty, AllocError> {
    let types = proposed_all(alloc, parts)?;
    Ok(tuple_ty(types))
}

#[cycle(spelling)]
fn proposed_all(alloc: Global, parts: &[ValueType]) -> Result<Vec<Ty>, AllocError> {
    let mut types = Vec::with_capacity(alloc, parts.len())?;
    for part in parts {
        let ty = proposed(alloc, part)?;
        types.push(ty)?;
    }
    Ok(types)
}

// What is proposed is read back: it is taken for the type, or there is none.
#[tactic(auto, using(crate::proofs::ReadBack::read_back))]
fn checked(alloc: Global, ty: &ValueType) -> Result<Ty, AllocError>
    ensures { IfOk result (λ t. type_of (ty_view t) ≡ type_view ty.now) }
{
    let found = proposed(alloc, ty)?;
    let read = value_type(alloc, &found)?;
    if !is_same(&read, ty) {
        return Err(AllocError);
    }
    Ok(found)
}

/// A syntax type that a reader takes for the type, as emitted items spell it. It fails where memory runs out, and at a type that none
/// is taken for, which stands at no field of a module.
pub(crate) fn spelled(alloc: Global, ty: &ValueType) -> Result<Ty, AllocError>
    ensures { IfOk result (λ t. type_of (ty_view t) ≡ type_view ty.now) }
{
    match ty {
        ValueType::Outside => {
            let found = outside(alloc)?;
            Ok(found)
        }
        _ => {
            let found = checked(alloc, ty)?;
            Ok(found)
        }
    }
}
