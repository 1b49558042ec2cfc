//! The graph of uses by value.
ghost use Rattle.std.specs.Prelude.{◌≡◌, ◌++◌, ◌∷◌, [], map, flat_map, IfOk, OnOk};
ghost use Rattle.entry_types.specs.View.{id_view, field_view, content_view, variant_view, shape_view, entry_view};
ghost use Rattle.use_graph.specs.Graph.{graph_of};
ghost use Rattle.space_defs.specs.Uses.{used_by_contents, used_by_shape, used_by, uses_at};
ghost use Rattle.emit_types.specs.Asked.{space_view};

use entry_types::{Content, FieldEntry, ItemShape, TypeEntry, TypeId, VariantEntry};
use std::alloc::{AllocError, Global};

fn add_id(ids: &mut Vec<u32>, id: TypeId) -> Result<(), AllocError>
    ensures { OnOk result (ids.new.items ≡ ids.old.items ++ id_view id ∷ []) }
{
    ids.push(id.0)?;
    Ok(())
}

#[tactic(auto, using(crate::proofs::Pieces::assoc))]
fn add_ids(ids: &mut Vec<u32>, from: &[TypeId]) -> Result<(), AllocError>
    ensures { OnOk result (ids.new.items ≡ ids.old.items ++ map id_view from.now) }
{
    for id in from {
        ids.push(id.0)?;
    }
    Ok(())
}

#[tactic(auto, using(crate::proofs::Pieces::assoc))]
fn add_fields(ids: &mut Vec<u32>, fields: &[FieldEntry]) -> Result<(), AllocError>
    ensures { OnOk result (ids.new.items ≡ ids.old.items ++ map (λ g. g.entry) (map field_view fields.now)) }
{
    for field in fields {
        ids.push(field.ty.0)?;
    }
    Ok(())
}

fn add_content(ids: &mut Vec<u32>, content: &Content) -> Result<(), AllocError>
    ensures { OnOk result (ids.new.items ≡ ids.old.items ++ used_by_contents (content_view content.now)) }
{
    match content {
        Content::Unit => {}
        Content::Newtype(id) => add_id(ids, *id)?,
        Content::Tuple(from) => add_ids(ids, from)?,
        Content::Struct(fields) => add_fields(ids, fields)?,
    }
    Ok(())
}

#[tactic(auto, using(crate::proofs::Pieces::assoc))]
fn add_variants(ids: &mut Vec<u32>, variants: &[VariantEntry]) -> Result<(), AllocError>
    ensures { OnOk result (ids.new.items ≡ ids.old.items ++ flat_map (λ x. used_by_contents x.contents) (map variant_view variants.now)) }
{
    for variant in variants {
        add_content(ids, &variant.content)?;
    }
    Ok(())
}

fn add_shape(ids: &mut Vec<u32>, shape: &ItemShape) -> Result<(), AllocError>
    ensures { OnOk result (ids.new.items ≡ ids.old.items ++ used_by_shape (shape_view shape.now)) }
{
    match shape {
        ItemShape::Struct { fields, .. } => add_fields(ids, fields)?,
        ItemShape::Enum { variants, .. } => add_variants(ids, variants)?,
        ItemShape::Newtype { inner, .. } => add_id(ids, *inner)?,
    }
    Ok(())
}

fn add_entry(ids: &mut Vec<u32>, entry: &TypeEntry) -> Result<(), AllocError>
    ensures { OnOk result (ids.new.items ≡ ids.old.items ++ used_by (entry_view entry.now)) }
{
    match entry {
        TypeEntry::Option(id) | TypeEntry::Array(id, _) | TypeEntry::Reference(id) => {
            add_id(ids, *id)?
        }
        TypeEntry::Tuple(from) => add_ids(ids, from)?,
        TypeEntry::Item(item) => add_shape(ids, &item.shape)?,
        TypeEntry::Bool
        | TypeEntry::Integer(_)
        | TypeEntry::Text
        | TypeEntry::Native(_)
        | TypeEntry::Any
        | TypeEntry::Unit
        | TypeEntry::Vec(_)
        | TypeEntry::Set(_)
        | TypeEntry::Map(_, _) => {}
    }
    Ok(())
}

// The ids that an entry uses by value.
fn row(alloc: Global, entry: &TypeEntry) -> Result<Vec<u32>, AllocError>
    ensures { IfOk result (λ ids. ids.items ≡ used_by (entry_view entry.now)) }
{
    let mut ids = Vec::new(alloc);
    add_entry(&mut ids, entry)?;
    Ok(ids)
}

/// A row of ids for each entry: those that it uses by value.
#[tactic(auto, using(crate::proofs::Pieces::assoc))]
pub fn uses(alloc: Global, entries: &[TypeEntry]) -> Result<Vec<Vec<u32>>, AllocError>
    ensures { IfOk result (λ rows. graph_of rows.items ≡ uses_at (space_view entries.now)) }
{
    let mut rows = Vec::with_capacity(alloc, entries.len())?;
    for entry in entries {
        rows.push(row(alloc, entry)?)?;
    }
    Ok(rows)
}
