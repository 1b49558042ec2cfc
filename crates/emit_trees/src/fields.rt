//! Fields.
ghost use Rattle.std.specs.Prelude.{◌≡◌, ◌∷◌, [], IfOk, map};
ghost use Rattle.syntax_trees.specs.Item.{field_view, fields_view, unnamed_fields};
ghost use Rattle.syntax_trees.specs.Syntax.{tys_of};
ghost use Rattle.syntax_trees.specs.View.{ty};
ghost use Rattle.emit_defs.specs.Trees.{unnamed_field, unnamed_fields_of};
ghost use Rattle.emit_trees.specs.MannerView.{manner_view};
ghost use Rattle.emit_trees.specs.Parts.{field_part, rest_part};

use crate::carried::{add_flag, serde_attributes};
use crate::manner::{Manner, held_ty};
use crate::metas::field_metas;
use attr_parts::FLATTEN;
use std::alloc::{AllocError, Global};
use syntax_trees::{Field, Fields, Ty};
use type_trees::{map_ty, name_of, text_ty};

/// A field without name and attributes. It takes no memory.
pub fn unnamed_field(alloc: Global, inner: Ty) -> Field
    ensures { field_view result ≡ unnamed_field (ty inner) }
{
    Field {
        attrs: Vec::new(alloc),
        ident: None,
        ty: inner,
    }
}

/// Fields of those types, without names and attributes.
#[tactic(auto, using(crate::proofs::Unnamed::unnamed_more, crate::proofs::Unnamed::unnamed_seen))]
pub fn unnamed_fields(alloc: Global, types: Vec<Ty>) -> Result<Vec<Field>, AllocError>
    ensures { IfOk result (λ v. map field_view v.items ≡ unnamed_fields_of (tys_of (map ty types.items))) }
{
    let mut fields = Vec::with_capacity(alloc, types.len())?;
    for inner in types {
        fields.push(unnamed_field(alloc, inner))?;
    }
    Ok(fields)
}

/// A field with its identifier, its name in JSON and its type, written in a manner. `place` is that of its default, from 0.
pub fn named_field(
    alloc: Global,
    identifier: &str,
    name: &str,
    place: usize,
    manner: Manner,
    inner: Ty,
) -> Result<Field, AllocError>
    ensures { IfOk result (λ f. field_view f ≡ field_part identifier.now name.now place (manner_view manner) (ty inner)) }
{
    let metas = field_metas(alloc, identifier, name, place, manner)?;
    Ok(Field {
        attrs: serde_attributes(alloc, metas)?,
        ident: Some(name_of(alloc, identifier)?),
        ty: held_ty(alloc, manner, inner)?,
    })
}

/// The field of that identifier that keeps the members which no field names: a map from texts to values of the type.
pub fn rest_field(alloc: Global, identifier: &str, value: Ty) -> Result<Field, AllocError>
    ensures { IfOk result (λ f. field_view f ≡ rest_part identifier.now (ty value)) }
{
    let mut metas = Vec::new(alloc);
    add_flag(&mut metas, FLATTEN)?;
    Ok(Field {
        attrs: serde_attributes(alloc, metas)?,
        ident: Some(name_of(alloc, identifier)?),
        ty: map_ty(alloc, text_ty(alloc)?, value)?,
    })
}

/// The one field of a newtype.
pub fn newtype_fields(alloc: Global, inner: Ty) -> Result<Fields, AllocError>
    ensures { IfOk result (λ f. fields_view f ≡ unnamed_fields (unnamed_field (ty inner) ∷ [])) }
{
    let mut fields = Vec::new(alloc);
    fields.push(unnamed_field(alloc, inner))?;
    Ok(Fields::Unnamed(fields))
}

/// The fields of a tuple.
pub fn tuple_fields(alloc: Global, types: Vec<Ty>) -> Result<Fields, AllocError>
    ensures { IfOk result (λ f. fields_view f ≡ unnamed_fields (unnamed_fields_of (tys_of (map ty types.items)))) }
{
    Ok(Fields::Unnamed(unnamed_fields(alloc, types)?))
}
