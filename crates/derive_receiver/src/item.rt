//! Items whose `Self` is replaced.
ghost use Rattle.std.specs.Prelude.{◌≡◌, IfOk, OnOk, OnErr, map};
ghost use Rattle.syntax_trees.specs.Item.{attribute_view, field_view, fields_view, variant_view, param_view, predicate_view, body_view, item_view};
ghost use Rattle.derive_receiver.specs.Replaced.{in_param, in_predicate, in_field, in_fields, in_variant, in_body, replaced};
ghost use Rattle.derive_receiver.specs.View.{own_view};

use crate::own::Receiver;
use crate::walk::{walk_bounds, walk_ty};
use std::alloc::{AllocError, Global};
use syntax_trees::{
    Attribute, Data, DeriveInput, Field, Fields, GenericParam, Generics, Variant, WherePredicate,
};
use token_trees::Ident;

fn walk_param(
    alloc: Global,
    own: &Receiver,
    from: &GenericParam,
) -> Result<GenericParam, AllocError>
    ensures { IfOk result (λ p. param_view p ≡ in_param (own_view own.now) (param_view from.now)) }
{
    match from {
        GenericParam::Ty { ident, bounds } => Ok(GenericParam::Ty {
            ident: ident.try_clone(alloc)?,
            bounds: walk_bounds(alloc, own, bounds)?,
        }),
        GenericParam::Lifetime(_) => from.try_clone(alloc),
        GenericParam::Const { .. } => from.try_clone(alloc),
    }
}

fn walk_params(
    alloc: Global,
    own: &Receiver,
    from: &Vec<GenericParam>,
) -> Result<Vec<GenericParam>, AllocError>
    ensures { IfOk result (λ v. map param_view v.items ≡ map (in_param (own_view own.now)) (map param_view from.now.items)) }
{
    let mut walked = Vec::with_capacity(alloc, from.len())?;
    for item in from {
        walked.push(walk_param(alloc, own, item)?)?;
    }
    Ok(walked)
}

fn walk_predicate(
    alloc: Global,
    own: &Receiver,
    from: &WherePredicate,
) -> Result<WherePredicate, AllocError>
    ensures { IfOk result (λ p. predicate_view p ≡ in_predicate (own_view own.now) (predicate_view from.now)) }
{
    match from {
        WherePredicate::Ty { ty, bounds } => Ok(WherePredicate::Ty {
            ty: walk_ty(alloc, own, ty)?,
            bounds: walk_bounds(alloc, own, bounds)?,
        }),
        WherePredicate::Lifetime { .. } => from.try_clone(alloc),
    }
}

fn walk_predicates(
    alloc: Global,
    own: &Receiver,
    from: &Vec<WherePredicate>,
) -> Result<Vec<WherePredicate>, AllocError>
    ensures { IfOk result (λ v. map predicate_view v.items ≡ map (in_predicate (own_view own.now)) (map predicate_view from.now.items)) }
{
    let mut walked = Vec::with_capacity(alloc, from.len())?;
    for item in from {
        walked.push(walk_predicate(alloc, own, item)?)?;
    }
    Ok(walked)
}

fn kept_attributes(alloc: Global, from: &Vec<Attribute>) -> Result<Vec<Attribute>, AllocError>
    ensures { IfOk result (λ v. map attribute_view v.items ≡ map attribute_view from.now.items) }
{
    let mut kept = Vec::with_capacity(alloc, from.len())?;
    for item in from {
        kept.push(item.try_clone(alloc)?)?;
    }
    Ok(kept)
}

fn walk_field(alloc: Global, own: &Receiver, from: &Field) -> Result<Field, AllocError>
    ensures { IfOk result (λ f. field_view f ≡ in_field (own_view own.now) (field_view from.now)) }
{
    let mut field = from.try_clone(alloc)?;
    field.ty = walk_ty(alloc, own, &from.ty)?;
    Ok(field)
}

fn walk_list_of_fields(
    alloc: Global,
    own: &Receiver,
    from: &Vec<Field>,
) -> Result<Vec<Field>, AllocError>
    ensures { IfOk result (λ v. map field_view v.items ≡ map (in_field (own_view own.now)) (map field_view from.now.items)) }
{
    let mut walked = Vec::with_capacity(alloc, from.len())?;
    for item in from {
        walked.push(walk_field(alloc, own, item)?)?;
    }
    Ok(walked)
}

fn walk_fields(alloc: Global, own: &Receiver, from: &Fields) -> Result<Fields, AllocError>
    ensures { IfOk result (λ f. fields_view f ≡ in_fields (own_view own.now) (fields_view from.now)) }
{
    match from {
        Fields::Named(fields) => Ok(Fields::Named(walk_list_of_fields(alloc, own, fields)?)),
        Fields::Unnamed(fields) => Ok(Fields::Unnamed(walk_list_of_fields(alloc, own, fields)?)),
        Fields::Unit => Ok(Fields::Unit),
    }
}

fn walk_variant(alloc: Global, own: &Receiver, from: &Variant) -> Result<Variant, AllocError>
    ensures { IfOk result (λ v. variant_view v ≡ in_variant (own_view own.now) (variant_view from.now)) }
{
    Ok(Variant {
        attrs: kept_attributes(alloc, &from.attrs)?,
        ident: from.ident.try_clone(alloc)?,
        fields: walk_fields(alloc, own, &from.fields)?,
    })
}

fn walk_variants(
    alloc: Global,
    own: &Receiver,
    from: &Vec<Variant>,
) -> Result<Vec<Variant>, AllocError>
    ensures { IfOk result (λ v. map variant_view v.items ≡ map (in_variant (own_view own.now)) (map variant_view from.now.items)) }
{
    let mut walked = Vec::with_capacity(alloc, from.len())?;
    for item in from {
        walked.push(walk_variant(alloc, own, item)?)?;
    }
    Ok(walked)
}

fn walk_body(alloc: Global, own: &Receiver, from: &Data) -> Result<Data, AllocError>
    ensures { IfOk result (λ d. body_view d ≡ in_body (own_view own.now) (body_view from.now)) }
{
    match from {
        Data::Struct(fields, at) => Ok(Data::Struct(walk_fields(alloc, own, fields)?, *at)),
        Data::Enum(variants, at) => Ok(Data::Enum(walk_variants(alloc, own, variants)?, *at)),
        Data::Union(_, _) => from.try_clone(alloc),
    }
}

/// Replaces `Self` by the item's own type: in the bounds of type parameters, in the predicates on types, and in the
/// types of the fields of structs and enums, down to array lengths. `Self` becomes `Name<'a, T, N>`; `Self::rest`
/// becomes `<Name<'a, T, N>>::rest`; in an expression, and where `Self` has an argument list of its own, it becomes
/// `Name::<'a, T, N>`. New tokens have the span of the `Self` that they replace. Fields of unions, constants among
/// generic arguments, constraints on associated types, types of const parameters, predicates on lifetimes, macros and
/// what is held as tokens stay. Want of memory is the only error, and leaves the item as it was.
pub fn replace_receiver(alloc: Global, input: &mut DeriveInput) -> Result<(), AllocError>
    ensures ok { OnOk result (item_view input.new ≡ replaced (item_view input.old)) }
    ensures err { OnErr result (item_view input.new ≡ item_view input.old) }
{
    let own = Receiver::of(alloc, &input.ident, &input.generics.params)?;
    let params = walk_params(alloc, &own, &input.generics.params)?;
    let where_clause = walk_predicates(alloc, &own, &input.generics.where_clause)?;
    let body = walk_body(alloc, &own, &input.body)?;
    input.generics = Generics {
        params,
        where_clause,
    };
    input.body = body;
    Ok(())
}
