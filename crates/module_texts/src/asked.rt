//! What types ask of the traits of the items in them.
ghost use Rattle.std.specs.Prelude.{◌≡◌, ◌&&◌, ◌||◌, IfOk, false, map, nat_lt};
ghost use Rattle.syntax_trees.specs.View.{ty as ty_view};
ghost use Rattle.syntax_trees.specs.Item.{field_view, fields_view, variant_view, body_view, item_view};
ghost use Rattle.type_spellings.specs.Types.{type_of};
ghost use Rattle.model_defs.specs.Types.{types};
ghost use Rattle.value_models.specs.TypeView.{type_view, types_view};
ghost use Rattle.module_texts.specs.declared.asked.Asked.TheVariants.{Item};
ghost use Rattle.module_texts.specs.Asked.{any_has as any_has_of, asks_items as asks_items_of, asks_length as asks_length_of, of_holder, body_has as body_has_of, count, each_has as each_has_of, fields_have as fields_have_of, has as has_of, is_hashed as is_hashed_of, items_have as items_have_of, variants_have as variants_have_of};

use std::alloc::{AllocError, Global};
use syntax_trees::{Data, DeriveInput, Field, Fields, Ty, Variant};
use value_models::ValueType;
use value_types::value_type;

/// What is asked of a type: whether an item stands in it; a set of items or a map with names that are items; a set or a map; a tuple of more than 12
/// places or an array of more than 32.
#[derive(Clone, Copy)]
pub enum Asked {
    Item,
    Key,
    Holder,
    Length,
}

fn asks_items(asked: Asked) -> bool
    ensures { result ≡ asks_items_of asked }
{
    match asked {
        Asked::Item => true,
        Asked::Key | Asked::Holder | Asked::Length => false,
    }
}

fn asks_length(asked: Asked) -> bool
    ensures { result ≡ asks_length_of asked }
{
    match asked {
        Asked::Length => true,
        Asked::Item | Asked::Key | Asked::Holder => false,
    }
}

fn is_past(asked: Asked, count: u64, most: u64) -> bool
    ensures { result ≡ (asks_length_of asked && nat_lt most count) }
{
    asks_length(asked) && most < count
}

#[tactic(auto, using(crate::proofs::Parts::count_is))]
fn count_of(parts: &[ValueType]) -> u64
    ensures { result ≡ count (types (types_view parts.now)) }
{
    parts.len() as u64
}

// Whether the type has what is asked.
#[cycle(asked)]
fn has(asked: Asked, ty: &ValueType) -> bool
    ensures { result ≡ has_of asked (type_view ty.now) }
{
    match ty {
        ValueType::Boolean
        | ValueType::Integer { .. }
        | ValueType::Text
        | ValueType::Native(_)
        | ValueType::Any
        | ValueType::Unit
        | ValueType::Outside => false,
        ValueType::Item(_) => asks_items(asked),
        ValueType::Optional(inner) => has(asked, inner),
        ValueType::Boxed(inner) => has(asked, inner),
        ValueType::List(inner) => has(asked, inner),
        ValueType::Set(inner) => at_holder(asked, inner) || has(asked, inner),
        ValueType::Map(key, inner) => at_holder(asked, key) || has(asked, key) || has(asked, inner),
        ValueType::Tuple(parts) => is_past(asked, count_of(parts), 12) || any_has(asked, parts),
        ValueType::Array(inner, count) => is_past(asked, *count, 32) || has(asked, inner),
    }
}

// The same of what is only asked of a set or of a map's names.
#[cycle(asked)]
fn at_holder(asked: Asked, inner: &ValueType) -> bool
    ensures { result ≡ of_holder asked (has_of Item (type_view inner.now)) }
{
    match asked {
        Asked::Key => has(Asked::Item, inner),
        Asked::Holder => true,
        Asked::Item | Asked::Length => false,
    }
}

#[cycle(asked)]
#[tactic(auto, using(crate::proofs::Parts::any_turn, crate::proofs::Parts::any_found, crate::proofs::Parts::any_end))]
fn any_has(asked: Asked, parts: &[ValueType]) -> bool
    ensures { result ≡ any_has_of asked (types (types_view parts.now)) }
{
    for part in parts {
        if has(asked, part) {
            return true;
        }
    }
    false
}

fn type_has(alloc: Global, asked: Asked, ty: &Ty) -> Result<bool, AllocError>
    ensures { IfOk result (λ b. b ≡ has_of asked (type_of (ty_view ty.now))) }
{
    let ty = value_type(alloc, ty)?;
    let found = has(asked, &ty);
    Ok(found)
}

// The same of one type more, where it is known whether those before had it.
fn or_has(alloc: Global, asked: Asked, found: bool, ty: &Ty) -> Result<bool, AllocError>
    ensures { IfOk result (λ b. b ≡ (found || has_of asked (type_of (ty_view ty.now)))) }
{
    if found {
        return Ok(true);
    }
    type_has(alloc, asked, ty)
}

fn each_has(alloc: Global, asked: Asked, before: bool, fields: &[Field]) -> Result<bool, AllocError>
    ensures { IfOk result (λ b. b ≡ each_has_of asked before (map field_view fields.now)) }
{
    let mut found = before;
    for field in fields {
        found = or_has(alloc, asked, found, &field.ty)?;
    }
    Ok(found)
}

fn fields_have(
    alloc: Global,
    asked: Asked,
    before: bool,
    fields: &Fields,
) -> Result<bool, AllocError>
    ensures { IfOk result (λ b. b ≡ fields_have_of asked before (fields_view fields.now)) }
{
    match fields {
        Fields::Named(fields) => each_has(alloc, asked, before, fields),
        Fields::Unnamed(fields) => each_has(alloc, asked, before, fields),
        Fields::Unit => Ok(before),
    }
}

fn variants_have(
    alloc: Global,
    asked: Asked,
    before: bool,
    variants: &[Variant],
) -> Result<bool, AllocError>
    ensures { IfOk result (λ b. b ≡ variants_have_of asked before (map variant_view variants.now)) }
{
    let mut found = before;
    for variant in variants {
        found = fields_have(alloc, asked, found, &variant.fields)?;
    }
    Ok(found)
}

/// Whether a type in the body has what is asked, or it was found before.
pub(crate) fn body_has(
    alloc: Global,
    asked: Asked,
    before: bool,
    body: &Data,
) -> Result<bool, AllocError>
    ensures { IfOk result (λ b. b ≡ body_has_of asked before (body_view body.now)) }
{
    match body {
        Data::Struct(fields, _) => fields_have(alloc, asked, before, fields),
        Data::Enum(variants, _) => variants_have(alloc, asked, before, variants),
        Data::Union(fields, _) => each_has(alloc, asked, before, fields),
    }
}

fn items_have(
    alloc: Global,
    asked: Asked,
    before: bool,
    items: &[DeriveInput],
) -> Result<bool, AllocError>
    ensures { IfOk result (λ b. b ≡ items_have_of asked before (map item_view items.now)) }
{
    let mut found = before;
    for item in items {
        found = body_has(alloc, asked, found, &item.body)?;
    }
    Ok(found)
}

/// Whether a set of items or a map with names that are items stands in the root's type or in an item.
pub(crate) fn is_hashed(alloc: Global, items: &[DeriveInput], root: &Ty) -> Result<bool, AllocError>
    ensures { IfOk result (λ b. b ≡ is_hashed_of (map item_view items.now) (ty_view root.now)) }
{
    let found = type_has(alloc, Asked::Key, root)?;
    items_have(alloc, Asked::Key, found, items)
}
