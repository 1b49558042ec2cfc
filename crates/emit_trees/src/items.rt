//! Variants and items.
ghost use Rattle.std.specs.Prelude.{◌≡◌, IfOk, map};
ghost use Rattle.token_trees.specs.Token.{site};
ghost use Rattle.syntax_trees.specs.Item.{fields_view, variant_view, item_view, body_view, struct_body, enum_body};
ghost use Rattle.emit_trees.specs.CarriedView.{all_carried};
ghost use Rattle.emit_trees.specs.Parts.{variant_part, item_part};

use crate::carried::{Carried, serde_attributes};
use crate::metas::variant_metas;
use std::alloc::{AllocError, Global};
use syntax_trees::{Data, DeriveInput, Fields, Generics, Variant};
use token_trees::Span;
use type_trees::name_of;

/// A variant with its identifier, its name in JSON and its fields.
pub fn variant(
    alloc: Global,
    identifier: &str,
    name: &str,
    fields: Fields,
) -> Result<Variant, AllocError>
    ensures { IfOk result (λ v. variant_view v ≡ variant_part identifier.now name.now (fields_view fields)) }
{
    let metas = variant_metas(alloc, identifier, name)?;
    Ok(Variant {
        attrs: serde_attributes(alloc, metas)?,
        ident: name_of(alloc, identifier)?,
        fields,
    })
}

// An item without parameters and predicates.
fn item(
    alloc: Global,
    name: &str,
    metas: Vec<Carried>,
    body: Data,
) -> Result<DeriveInput, AllocError>
    ensures { IfOk result (λ d. item_view d ≡ item_part name.now (all_carried metas.items) (body_view body)) }
{
    Ok(DeriveInput {
        attrs: serde_attributes(alloc, metas)?,
        ident: name_of(alloc, name)?,
        generics: Generics {
            params: Vec::new(alloc),
            where_clause: Vec::new(alloc),
        },
        body,
    })
}

/// A struct with what it carries, without parameters and predicates.
pub fn struct_item(
    alloc: Global,
    name: &str,
    metas: Vec<Carried>,
    fields: Fields,
) -> Result<DeriveInput, AllocError>
    ensures { IfOk result (λ d. item_view d ≡ item_part name.now (all_carried metas.items) (struct_body (fields_view fields) site)) }
{
    item(alloc, name, metas, Data::Struct(fields, Span::call_site()))
}

/// An enum with what it carries, without parameters and predicates.
pub fn enum_item(
    alloc: Global,
    name: &str,
    metas: Vec<Carried>,
    variants: Vec<Variant>,
) -> Result<DeriveInput, AllocError>
    ensures { IfOk result (λ d. item_view d ≡ item_part name.now (all_carried metas.items) (enum_body (map variant_view variants.items) site)) }
{
    item(alloc, name, metas, Data::Enum(variants, Span::call_site()))
}
