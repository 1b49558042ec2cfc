//! Typed values.
ghost use Rattle.std.specs.Prelude.{◌≡◌, IfOk};
ghost use Rattle.value_models.specs.TypedView.{pairs_view, typed_view, typeds_view};

use serde_json::Value;
use std::alloc::{AllocError, Global};

/// What a JSON value becomes once it is read as a type. A missing option is `None`; a struct has a value for each field in
/// order; a variant has its place among the variants and a value for each of its fields. A box has no mark of its own.
#[derive(Drop)]
pub enum Typed {
    Unit,
    Bool(bool),
    /// A whole number from the least i64 to the greatest u64.
    Int(i128),
    Text(String),
    Any(Value),
    None,
    Some(Box<Typed>),
    List(Vec<Typed>),
    Map(Vec<(Typed, Typed)>),
    Struct(Vec<Typed>),
    Variant(u32, Vec<Typed>),
    Newtype(Box<Typed>),
}

impl Typed {
    /// A copy, which stands for the same typed value. Fails only for want of memory.
    pub fn try_clone(&self, alloc: Global) -> Result<Typed, AllocError>
        ensures { IfOk result (λ t. typed_view t ≡ typed_view self.now) }
    {
        copy_typed(alloc, self)
    }
}

#[cycle(copy)]
fn copy_typed(alloc: Global, from: &Typed) -> Result<Typed, AllocError>
    ensures { IfOk result (λ t. typed_view t ≡ typed_view from.now) }
{
    match from {
        Typed::Unit => Ok(Typed::Unit),
        Typed::Bool(truth) => Ok(Typed::Bool(*truth)),
        Typed::Int(number) => Ok(Typed::Int(*number)),
        Typed::Text(text) => Ok(Typed::Text(text.clone()?)),
        Typed::Any(value) => Ok(Typed::Any(value.clone()?)),
        Typed::None => Ok(Typed::None),
        Typed::Some(inner) => Ok(Typed::Some(copy_box(alloc, inner)?)),
        Typed::List(items) => Ok(Typed::List(copy_list(alloc, items)?)),
        Typed::Map(pairs) => Ok(Typed::Map(copy_pairs(alloc, pairs)?)),
        Typed::Struct(fields) => Ok(Typed::Struct(copy_list(alloc, fields)?)),
        Typed::Variant(place, fields) => Ok(Typed::Variant(*place, copy_list(alloc, fields)?)),
        Typed::Newtype(inner) => Ok(Typed::Newtype(copy_box(alloc, inner)?)),
    }
}

#[cycle(copy)]
fn copy_box(alloc: Global, from: &Box<Typed>) -> Result<Box<Typed>, AllocError>
    ensures { IfOk result (λ b. typed_view b.value ≡ typed_view from.now.value) }
{
    Ok(Box::new(alloc, copy_typed(alloc, from)?)?)
}

#[cycle(copy)]
fn copy_list(alloc: Global, from: &Vec<Typed>) -> Result<Vec<Typed>, AllocError>
    ensures { IfOk result (λ v. typeds_view v.items ≡ typeds_view from.now.items) }
{
    let mut copies = Vec::with_capacity(alloc, from.len())?;
    for item in from {
        copies.push(copy_typed(alloc, item)?)?;
    }
    Ok(copies)
}

#[cycle(copy)]
fn copy_pairs(alloc: Global, from: &Vec<(Typed, Typed)>) -> Result<Vec<(Typed, Typed)>, AllocError>
    ensures { IfOk result (λ v. pairs_view v.items ≡ pairs_view from.now.items) }
{
    let mut copies = Vec::with_capacity(alloc, from.len())?;
    for (key, value) in from {
        copies.push((copy_typed(alloc, key)?, copy_typed(alloc, value)?))?;
    }
    Ok(copies)
}
