//! Copies of items and of what they hold.
ghost use Rattle.std.specs.Prelude.{◌≡◌, IfOk, map, option_map};
ghost use Rattle.token_trees.specs.View.{name_view};
ghost use Rattle.syntax_trees.specs.View.{bound_view, lifetime_view};
ghost use Rattle.syntax_trees.specs.Item.{meta_view, attribute_view, field_view, fields_view, variant_view, param_view, predicate_view, body_view, item_view};

use crate::copy::copy_bounds;
use crate::item::{
    Attribute, Data, DeriveInput, Field, Fields, GenericParam, Generics, Meta, Variant,
    WherePredicate,
};
use crate::tree::Lifetime;
use std::alloc::{AllocError, Global};
use token_trees::Ident;

impl Meta {
    pub fn try_clone(&self, alloc: Global) -> Result<Meta, AllocError>
        ensures { IfOk result (λ m. meta_view m ≡ meta_view self.now) }
    {
        match self {
            Meta::Path(path) => Ok(Meta::Path(path.try_clone(alloc)?)),
            Meta::List { path, tokens, span } => Ok(Meta::List {
                path: path.try_clone(alloc)?,
                tokens: tokens.try_clone(alloc)?,
                span: *span,
            }),
            Meta::NameValue { path, value } => Ok(Meta::NameValue {
                path: path.try_clone(alloc)?,
                value: value.try_clone(alloc)?,
            }),
        }
    }
}

impl Attribute {
    pub fn try_clone(&self, alloc: Global) -> Result<Attribute, AllocError>
        ensures { IfOk result (λ a. attribute_view a ≡ attribute_view self.now) }
    {
        Ok(Attribute {
            meta: self.meta.try_clone(alloc)?,
        })
    }
}

fn copy_attributes(alloc: Global, from: &Vec<Attribute>) -> Result<Vec<Attribute>, AllocError>
    ensures { IfOk result (λ v. map attribute_view v.items ≡ map attribute_view from.now.items) }
{
    let mut copies = Vec::with_capacity(alloc, from.len())?;
    for item in from {
        copies.push(item.try_clone(alloc)?)?;
    }
    Ok(copies)
}

fn copy_maybe_name(alloc: Global, from: &Option<Ident>) -> Result<Option<Ident>, AllocError>
    ensures { IfOk result (λ n. option_map name_view n ≡ option_map name_view from.now) }
{
    match from {
        None => Ok(None),
        Some(name) => Ok(Some(name.try_clone(alloc)?)),
    }
}

impl Field {
    pub fn try_clone(&self, alloc: Global) -> Result<Field, AllocError>
        ensures { IfOk result (λ f. field_view f ≡ field_view self.now) }
    {
        Ok(Field {
            attrs: copy_attributes(alloc, &self.attrs)?,
            ident: copy_maybe_name(alloc, &self.ident)?,
            ty: self.ty.try_clone(alloc)?,
        })
    }
}

fn copy_fields(alloc: Global, from: &Vec<Field>) -> Result<Vec<Field>, AllocError>
    ensures { IfOk result (λ v. map field_view v.items ≡ map field_view from.now.items) }
{
    let mut copies = Vec::with_capacity(alloc, from.len())?;
    for item in from {
        copies.push(item.try_clone(alloc)?)?;
    }
    Ok(copies)
}

impl Fields {
    pub fn try_clone(&self, alloc: Global) -> Result<Fields, AllocError>
        ensures { IfOk result (λ f. fields_view f ≡ fields_view self.now) }
    {
        match self {
            Fields::Named(fields) => Ok(Fields::Named(copy_fields(alloc, fields)?)),
            Fields::Unnamed(fields) => Ok(Fields::Unnamed(copy_fields(alloc, fields)?)),
            Fields::Unit => Ok(Fields::Unit),
        }
    }
}

impl Variant {
    pub fn try_clone(&self, alloc: Global) -> Result<Variant, AllocError>
        ensures { IfOk result (λ v. variant_view v ≡ variant_view self.now) }
    {
        Ok(Variant {
            attrs: copy_attributes(alloc, &self.attrs)?,
            ident: self.ident.try_clone(alloc)?,
            fields: self.fields.try_clone(alloc)?,
        })
    }
}

fn copy_variants(alloc: Global, from: &Vec<Variant>) -> Result<Vec<Variant>, AllocError>
    ensures { IfOk result (λ v. map variant_view v.items ≡ map variant_view from.now.items) }
{
    let mut copies = Vec::with_capacity(alloc, from.len())?;
    for item in from {
        copies.push(item.try_clone(alloc)?)?;
    }
    Ok(copies)
}

impl GenericParam {
    pub fn try_clone(&self, alloc: Global) -> Result<GenericParam, AllocError>
        ensures { IfOk result (λ p. param_view p ≡ param_view self.now) }
    {
        match self {
            GenericParam::Ty { ident, bounds } => Ok(GenericParam::Ty {
                ident: ident.try_clone(alloc)?,
                bounds: copy_bounds(alloc, bounds)?,
            }),
            GenericParam::Lifetime(lifetime) => {
                Ok(GenericParam::Lifetime(lifetime.try_clone(alloc)?))
            }
            GenericParam::Const { ident, ty } => Ok(GenericParam::Const {
                ident: ident.try_clone(alloc)?,
                ty: ty.try_clone(alloc)?,
            }),
        }
    }
}

fn copy_params(alloc: Global, from: &Vec<GenericParam>) -> Result<Vec<GenericParam>, AllocError>
    ensures { IfOk result (λ v. map param_view v.items ≡ map param_view from.now.items) }
{
    let mut copies = Vec::with_capacity(alloc, from.len())?;
    for item in from {
        copies.push(item.try_clone(alloc)?)?;
    }
    Ok(copies)
}

fn copy_lifetimes(alloc: Global, from: &Vec<Lifetime>) -> Result<Vec<Lifetime>, AllocError>
    ensures { IfOk result (λ v. map lifetime_view v.items ≡ map lifetime_view from.now.items) }
{
    let mut copies = Vec::with_capacity(alloc, from.len())?;
    for item in from {
        copies.push(item.try_clone(alloc)?)?;
    }
    Ok(copies)
}

impl WherePredicate {
    pub fn try_clone(&self, alloc: Global) -> Result<WherePredicate, AllocError>
        ensures { IfOk result (λ p. predicate_view p ≡ predicate_view self.now) }
    {
        match self {
            WherePredicate::Ty { ty, bounds } => Ok(WherePredicate::Ty {
                ty: ty.try_clone(alloc)?,
                bounds: copy_bounds(alloc, bounds)?,
            }),
            WherePredicate::Lifetime { lifetime, bounds } => Ok(WherePredicate::Lifetime {
                lifetime: lifetime.try_clone(alloc)?,
                bounds: copy_lifetimes(alloc, bounds)?,
            }),
        }
    }
}

fn copy_predicates(
    alloc: Global,
    from: &Vec<WherePredicate>,
) -> Result<Vec<WherePredicate>, AllocError>
    ensures { IfOk result (λ v. map predicate_view v.items ≡ map predicate_view from.now.items) }
{
    let mut copies = Vec::with_capacity(alloc, from.len())?;
    for item in from {
        copies.push(item.try_clone(alloc)?)?;
    }
    Ok(copies)
}

impl Generics {
    pub fn try_clone(&self, alloc: Global) -> Result<Generics, AllocError>
        ensures params { IfOk result (λ g. map param_view g.params.items ≡ map param_view self.now.params.items) }
        ensures predicates { IfOk result (λ g. map predicate_view g.where_clause.items ≡ map predicate_view self.now.where_clause.items) }
    {
        Ok(Generics {
            params: copy_params(alloc, &self.params)?,
            where_clause: copy_predicates(alloc, &self.where_clause)?,
        })
    }
}

impl Data {
    pub fn try_clone(&self, alloc: Global) -> Result<Data, AllocError>
        ensures { IfOk result (λ d. body_view d ≡ body_view self.now) }
    {
        match self {
            Data::Struct(fields, at) => Ok(Data::Struct(fields.try_clone(alloc)?, *at)),
            Data::Enum(variants, at) => Ok(Data::Enum(copy_variants(alloc, variants)?, *at)),
            Data::Union(fields, at) => Ok(Data::Union(copy_fields(alloc, fields)?, *at)),
        }
    }
}

impl DeriveInput {
    pub fn try_clone(&self, alloc: Global) -> Result<DeriveInput, AllocError>
        ensures { IfOk result (λ d. item_view d ≡ item_view self.now) }
    {
        Ok(DeriveInput {
            attrs: copy_attributes(alloc, &self.attrs)?,
            ident: self.ident.try_clone(alloc)?,
            generics: self.generics.try_clone(alloc)?,
            body: self.body.try_clone(alloc)?,
        })
    }
}
