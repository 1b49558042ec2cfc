//! The types that are written for entries.
ghost use Rattle.std.specs.Prelude.{◌≡◌, Some, IfOk, map};
ghost use Rattle.syntax_trees.specs.View.{ty};
ghost use Rattle.entry_types.specs.View.{id_view, integer_view, entry_view};
ghost use Rattle.space_defs.specs.Items.{name_at};
ghost use Rattle.space_defs.specs.Types.{form_ty, ty_within, ty_at};
ghost use Rattle.emit_types.specs.Asked.{space_view, boxed_in};
ghost use Rattle.type_trees.specs.Integers as trees;

use crate::lookup::{entry_of, is_boxed, item_name};
use entry_types::{IntName, TypeEntry, TypeId};
use std::alloc::{AllocError, Global};
use syntax_trees::Ty;
use type_trees::{
    IntegerName, any_ty, array_ty, boolean_ty, integer_ty, map_ty, native_ty, option_ty, set_ty,
    text_ty, tuple_ty, unit_ty, used_ty, vec_ty,
};

// The same integer type.
fn integer_of(name: IntName) -> IntegerName
    ensures { trees.integer_view result ≡ integer_view name }
{
    match name {
        IntName::I8 => IntegerName::I8,
        IntName::U8 => IntegerName::U8,
        IntName::I16 => IntegerName::I16,
        IntName::U16 => IntegerName::U16,
        IntName::I32 => IntegerName::I32,
        IntName::U32 => IntegerName::U32,
        IntName::I64 => IntegerName::I64,
        IntName::U64 => IntegerName::U64,
        IntName::NonZeroU8 => IntegerName::NonZeroU8,
        IntName::NonZeroU16 => IntegerName::NonZeroU16,
        IntName::NonZeroU32 => IntegerName::NonZeroU32,
        IntName::NonZeroU64 => IntegerName::NonZeroU64,
    }
}

// The type of an entry, in which so many entries stand inside one another at most; inside the item `owner`, or outside items.
#[cycle(types)]
fn type_within(
    alloc: Global,
    entries: &[TypeEntry],
    parts: &[u32],
    owner: Option<usize>,
    depth: usize,
    id: TypeId,
) -> Result<Ty, AllocError>
    ensures { IfOk result (λ t. ty t ≡ ty_within (space_view entries.now) depth (boxed_in parts.now owner) id.0) }
{
    if depth == 0 {
        return Ok(any_ty(alloc)?);
    }
    match entry_of(entries, id.0 as usize) {
        Some(entry) => {
            let form = type_of_form(alloc, entries, parts, owner, depth - 1, id, entry)?;
            Ok(form)
        }
        None => Ok(any_ty(alloc)?),
    }
}

// The same of the entry at that id.
#[cycle(types)]
fn type_of_form(
    alloc: Global,
    entries: &[TypeEntry],
    parts: &[u32],
    owner: Option<usize>,
    depth: usize,
    id: TypeId,
    entry: &TypeEntry,
) -> Result<Ty, AllocError>
    ensures { IfOk result (λ t. ty t ≡ form_ty (name_at (space_view entries.now)) (λ c j. ty_within (space_view entries.now) depth c j) (boxed_in parts.now owner) id.0 (Some (entry_view entry.now))) }
{
    match entry {
        TypeEntry::Bool => Ok(boolean_ty(alloc)?),
        TypeEntry::Integer(name) => Ok(integer_ty(alloc, integer_of(*name))?),
        TypeEntry::Text => Ok(text_ty(alloc)?),
        TypeEntry::Native(format) => Ok(native_ty(alloc, *format)?),
        TypeEntry::Any => Ok(any_ty(alloc)?),
        TypeEntry::Unit => Ok(unit_ty(alloc)),
        TypeEntry::Option(inner) => {
            let inner = type_within(alloc, entries, parts, owner, depth, *inner)?;
            Ok(option_ty(alloc, inner)?)
        }
        TypeEntry::Vec(inner) => {
            let inner = type_within(alloc, entries, parts, None, depth, *inner)?;
            Ok(vec_ty(alloc, inner)?)
        }
        TypeEntry::Set(inner) => {
            let inner = type_within(alloc, entries, parts, None, depth, *inner)?;
            Ok(set_ty(alloc, inner)?)
        }
        TypeEntry::Map(key, value) => {
            let key = type_within(alloc, entries, parts, None, depth, *key)?;
            let value = type_within(alloc, entries, parts, None, depth, *value)?;
            Ok(map_ty(alloc, key, value)?)
        }
        TypeEntry::Tuple(ids) => {
            let types = types_within(alloc, entries, parts, owner, depth, ids)?;
            Ok(tuple_ty(types))
        }
        TypeEntry::Array(inner, length) => {
            let inner = type_within(alloc, entries, parts, owner, depth, *inner)?;
            Ok(array_ty(alloc, inner, *length)?)
        }
        TypeEntry::Reference(target) => {
            let target = target.0 as usize;
            Ok(used_ty(
                alloc,
                is_boxed(parts, owner, target),
                item_name(entries, target),
            )?)
        }
        TypeEntry::Item(item) => Ok(used_ty(
            alloc,
            is_boxed(parts, owner, id.0 as usize),
            &item.name,
        )?),
    }
}

// The types of entries in order.
#[cycle(types)]
#[tactic(auto, using(crate::proofs::Pieces::assoc))]
fn types_within(
    alloc: Global,
    entries: &[TypeEntry],
    parts: &[u32],
    owner: Option<usize>,
    depth: usize,
    ids: &[TypeId],
) -> Result<Vec<Ty>, AllocError>
    ensures { IfOk result (λ v. map ty v.items ≡ map (ty_within (space_view entries.now) depth (boxed_in parts.now owner)) (map id_view ids.now)) }
{
    let mut types = Vec::with_capacity(alloc, ids.len())?;
    for id in ids {
        types.push(type_within(alloc, entries, parts, owner, depth, *id)?)?;
    }
    Ok(types)
}

/// The type that is written for an entry, inside the item `owner`, or outside items.
pub fn type_at(
    alloc: Global,
    entries: &[TypeEntry],
    parts: &[u32],
    owner: Option<usize>,
    id: TypeId,
) -> Result<Ty, AllocError>
    ensures { IfOk result (λ t. ty t ≡ ty_at (space_view entries.now) (boxed_in parts.now owner) id.0) }
{
    let written = type_within(alloc, entries, parts, owner, entries.len(), id)?;
    Ok(written)
}

/// The types that are written for entries inside an item.
pub fn types_at(
    alloc: Global,
    entries: &[TypeEntry],
    parts: &[u32],
    owner: usize,
    ids: &[TypeId],
) -> Result<Vec<Ty>, AllocError>
    ensures { IfOk result (λ v. map ty v.items ≡ map (ty_at (space_view entries.now) (boxed_in parts.now (Some owner))) (map id_view ids.now)) }
{
    let written = types_within(alloc, entries, parts, Some(owner), entries.len(), ids)?;
    Ok(written)
}
