//! The tokens of items and of what they hold, written one after another.
ghost use Rattle.std.specs.Prelude.{◌≡◌, OnOk, map, option_map, ◌++◌, ◌∷◌, [], codes, false};
ghost use Rattle.token_trees.specs.View.{stream, name_view};
ghost use Rattle.token_trees.specs.Token.{group, toks_of};
ghost use Rattle.token_trees.specs.declared.token.Delimiter.TheVariants.{Parenthesis};
ghost use Rattle.syntax_trees.specs.View.{bound_view, lifetime_view, path_view, ty};
ghost use Rattle.syntax_trees.specs.Item.{meta_view, attribute_view, field_view, fields_view, variant_view, param_view, predicate_view, body_view, item_view};
ghost use Rattle.syntax_printing.specs.Print.{sign, within_parens, within_braces};
ghost use Rattle.syntax_printing.specs.PrintPredicates.{print_lifetimes, print_predicate, print_predicates};
ghost use Rattle.rust_syntax.specs.PrintItem.{print_meta, print_attribute, print_attributes, print_label, print_field, print_each_field, print_fields, print_variant, print_each_variant, print_bounded, print_param, print_params, print_angle, print_where, print_kind, print_struct_end, print_end, print_body, print_item};

use crate::write::{
    write_bounds, write_keyword, write_lifetime, write_name, write_path, write_separator,
    write_sign, write_stream, write_ty, write_word,
};
use std::alloc::AllocError;
use syntax_trees::{
    Attribute, Bound, Data, DeriveInput, Field, Fields, GenericParam, Lifetime, Meta, Variant,
    WherePredicate,
};
use token_trees::{Delimiter, Group, Ident, Span, TokenStream, TokenTree};

fn write_list(out: &mut TokenStream, tokens: &TokenStream, at: Span) -> Result<(), AllocError>
    ensures { OnOk result (stream out.new ≡ stream out.old ++ group Parenthesis (toks_of (stream tokens.now)) at ∷ []) }
{
    let stream = tokens.try_clone(out.allocator())?;
    out.push(TokenTree::Group(Group {
        delimiter: Delimiter::Parenthesis,
        stream,
        span: at,
    }))
}

#[tactic(auto, using(crate::proofs::Pieces::assoc))]
pub(crate) fn write_meta(from: &Meta, out: &mut TokenStream) -> Result<(), AllocError>
    ensures { OnOk result (stream out.new ≡ stream out.old ++ print_meta (meta_view from.now)) }
{
    match from {
        Meta::Path(path) => write_path(path, out),
        Meta::List { path, tokens, span } => {
            write_path(path, out)?;
            write_list(out, tokens, *span)
        }
        Meta::NameValue { path, value } => {
            write_path(path, out)?;
            write_sign(out, '=')?;
            write_stream(out, value)
        }
    }
}

#[tactic(auto, using(crate::proofs::Pieces::assoc))]
pub(crate) fn write_attribute(from: &Attribute, out: &mut TokenStream) -> Result<(), AllocError>
    ensures { OnOk result (stream out.new ≡ stream out.old ++ print_attribute (attribute_view from.now)) }
{
    let mut inner = TokenStream::new(out.allocator());
    write_meta(&from.meta, &mut inner)?;
    write_sign(out, '#')?;
    out.push_group(Delimiter::Bracket, inner)
}

#[tactic(auto, using(crate::proofs::Pieces::assoc))]
fn write_attributes(from: &[Attribute], out: &mut TokenStream) -> Result<(), AllocError>
    ensures { OnOk result (stream out.new ≡ stream out.old ++ print_attributes (map attribute_view from.now)) }
{
    for item in from {
        write_attribute(item, out)?;
    }
    Ok(())
}

fn write_label(from: &Option<Ident>, out: &mut TokenStream) -> Result<(), AllocError>
    ensures { OnOk result (stream out.new ≡ stream out.old ++ print_label (option_map name_view from.now)) }
{
    match from {
        None => Ok(()),
        Some(name) => {
            write_name(out, name)?;
            write_sign(out, ':')
        }
    }
}

#[tactic(auto, using(crate::proofs::Pieces::assoc))]
pub(crate) fn write_field(from: &Field, out: &mut TokenStream) -> Result<(), AllocError>
    ensures { OnOk result (stream out.new ≡ stream out.old ++ print_field (field_view from.now)) }
{
    write_attributes(&from.attrs, out)?;
    write_label(&from.ident, out)?;
    write_ty(&from.ty, out)
}

#[tactic(auto, using(crate::proofs::Pieces::assoc))]
fn write_each_field(from: &[Field], out: &mut TokenStream) -> Result<(), AllocError>
    ensures { OnOk result (stream out.new ≡ stream out.old ++ print_each_field (map field_view from.now)) }
{
    for item in from {
        write_field(item, out)?;
        write_sign(out, ',')?;
    }
    Ok(())
}

#[tactic(auto, using(crate::proofs::Pieces::assoc))]
fn write_braced_fields(from: &[Field], out: &mut TokenStream) -> Result<(), AllocError>
    ensures { OnOk result (stream out.new ≡ stream out.old ++ within_braces (print_each_field (map field_view from.now)) ∷ []) }
{
    let mut inner = TokenStream::new(out.allocator());
    write_each_field(from, &mut inner)?;
    out.push_group(Delimiter::Brace, inner)
}

#[tactic(auto, using(crate::proofs::Pieces::assoc))]
fn write_unnamed_fields(from: &[Field], out: &mut TokenStream) -> Result<(), AllocError>
    ensures { OnOk result (stream out.new ≡ stream out.old ++ within_parens (print_each_field (map field_view from.now)) ∷ []) }
{
    let mut inner = TokenStream::new(out.allocator());
    write_each_field(from, &mut inner)?;
    out.push_group(Delimiter::Parenthesis, inner)
}

pub(crate) fn write_fields(from: &Fields, out: &mut TokenStream) -> Result<(), AllocError>
    ensures { OnOk result (stream out.new ≡ stream out.old ++ print_fields (fields_view from.now)) }
{
    match from {
        Fields::Named(fields) => write_braced_fields(fields, out),
        Fields::Unnamed(fields) => write_unnamed_fields(fields, out),
        Fields::Unit => Ok(()),
    }
}

#[tactic(auto, using(crate::proofs::Pieces::assoc))]
pub(crate) fn write_variant(from: &Variant, out: &mut TokenStream) -> Result<(), AllocError>
    ensures { OnOk result (stream out.new ≡ stream out.old ++ print_variant (variant_view from.now)) }
{
    write_attributes(&from.attrs, out)?;
    write_name(out, &from.ident)?;
    write_fields(&from.fields, out)
}

#[tactic(auto, using(crate::proofs::Pieces::assoc))]
fn write_each_variant(from: &[Variant], out: &mut TokenStream) -> Result<(), AllocError>
    ensures { OnOk result (stream out.new ≡ stream out.old ++ print_each_variant (map variant_view from.now)) }
{
    for item in from {
        write_variant(item, out)?;
        write_sign(out, ',')?;
    }
    Ok(())
}

#[tactic(auto, using(crate::proofs::Pieces::assoc))]
fn write_braced_variants(from: &[Variant], out: &mut TokenStream) -> Result<(), AllocError>
    ensures { OnOk result (stream out.new ≡ stream out.old ++ within_braces (print_each_variant (map variant_view from.now)) ∷ []) }
{
    let mut inner = TokenStream::new(out.allocator());
    write_each_variant(from, &mut inner)?;
    out.push_group(Delimiter::Brace, inner)
}

#[tactic(auto, using(crate::proofs::Pieces::assoc, crate::proofs::Pieces::bounded_nil, crate::proofs::Pieces::bounded_cons))]
fn write_bounded_by(from: &[Bound], out: &mut TokenStream) -> Result<(), AllocError>
    ensures { OnOk result (stream out.new ≡ stream out.old ++ print_bounded (map bound_view from.now)) }
{
    if from.is_empty() {
        return Ok(());
    }
    write_sign(out, ':')?;
    write_bounds(from, out)
}

#[tactic(auto, using(crate::proofs::Pieces::assoc))]
pub(crate) fn write_param(from: &GenericParam, out: &mut TokenStream) -> Result<(), AllocError>
    ensures { OnOk result (stream out.new ≡ stream out.old ++ print_param (param_view from.now)) }
{
    match from {
        GenericParam::Ty { ident, bounds } => {
            write_name(out, ident)?;
            write_bounded_by(bounds, out)
        }
        GenericParam::Lifetime(lifetime) => write_lifetime(out, lifetime),
        GenericParam::Const { ident, ty } => {
            write_keyword(out, "const")?;
            write_name(out, ident)?;
            write_sign(out, ':')?;
            write_ty(ty, out)
        }
    }
}

#[tactic(auto, using(crate::proofs::Pieces::assoc))]
fn write_params(from: &[GenericParam], out: &mut TokenStream) -> Result<(), AllocError>
    ensures { OnOk result (stream out.new ≡ stream out.old ++ print_params false (map param_view from.now)) }
{
    let mut between = false;
    for item in from {
        write_separator(out, between, ',')?;
        write_param(item, out)?;
        between = true;
    }
    Ok(())
}

#[tactic(auto, using(crate::proofs::Pieces::assoc, crate::proofs::Pieces::angle_nil, crate::proofs::Pieces::angle_cons))]
pub(crate) fn write_angle_params(
    from: &[GenericParam],
    out: &mut TokenStream,
) -> Result<(), AllocError>
    ensures { OnOk result (stream out.new ≡ stream out.old ++ print_angle (map param_view from.now)) }
{
    if from.is_empty() {
        return Ok(());
    }
    write_sign(out, '<')?;
    write_params(from, out)?;
    write_sign(out, '>')
}

#[tactic(auto, using(crate::proofs::Pieces::assoc))]
fn write_lifetimes(from: &[Lifetime], out: &mut TokenStream) -> Result<(), AllocError>
    ensures { OnOk result (stream out.new ≡ stream out.old ++ print_lifetimes false (map lifetime_view from.now)) }
{
    let mut between = false;
    for item in from {
        write_separator(out, between, '+')?;
        write_lifetime(out, item)?;
        between = true;
    }
    Ok(())
}

#[tactic(auto, using(crate::proofs::Pieces::assoc))]
pub(crate) fn write_predicate(
    from: &WherePredicate,
    out: &mut TokenStream,
) -> Result<(), AllocError>
    ensures { OnOk result (stream out.new ≡ stream out.old ++ print_predicate (predicate_view from.now)) }
{
    match from {
        WherePredicate::Ty { ty, bounds } => {
            write_ty(ty, out)?;
            write_sign(out, ':')?;
            write_bounds(bounds, out)
        }
        WherePredicate::Lifetime { lifetime, bounds } => {
            write_lifetime(out, lifetime)?;
            write_sign(out, ':')?;
            write_lifetimes(bounds, out)
        }
    }
}

#[tactic(auto, using(crate::proofs::Pieces::assoc))]
fn write_predicates(from: &[WherePredicate], out: &mut TokenStream) -> Result<(), AllocError>
    ensures { OnOk result (stream out.new ≡ stream out.old ++ print_predicates false (map predicate_view from.now)) }
{
    let mut between = false;
    for item in from {
        write_separator(out, between, ',')?;
        write_predicate(item, out)?;
        between = true;
    }
    Ok(())
}

#[tactic(auto, using(crate::proofs::Pieces::assoc, crate::proofs::Pieces::where_nil, crate::proofs::Pieces::where_cons))]
pub(crate) fn write_where(from: &[WherePredicate], out: &mut TokenStream) -> Result<(), AllocError>
    ensures { OnOk result (stream out.new ≡ stream out.old ++ print_where (map predicate_view from.now)) }
{
    if from.is_empty() {
        return Ok(());
    }
    write_keyword(out, "where")?;
    write_predicates(from, out)
}

fn write_kind(from: &Data, out: &mut TokenStream) -> Result<(), AllocError>
    ensures { OnOk result (stream out.new ≡ stream out.old ++ print_kind (body_view from.now) ∷ []) }
{
    match from {
        Data::Struct(_, span) => write_word(out, "struct", *span),
        Data::Enum(_, span) => write_word(out, "enum", *span),
        Data::Union(_, span) => write_word(out, "union", *span),
    }
}

#[tactic(auto, using(crate::proofs::Pieces::assoc))]
fn write_struct_end(
    from: &Fields,
    predicates: &[WherePredicate],
    out: &mut TokenStream,
) -> Result<(), AllocError>
    ensures { OnOk result (stream out.new ≡ stream out.old ++ print_struct_end (map predicate_view predicates.now) (fields_view from.now)) }
{
    match from {
        Fields::Named(fields) => {
            write_where(predicates, out)?;
            write_braced_fields(fields, out)
        }
        Fields::Unnamed(fields) => {
            write_unnamed_fields(fields, out)?;
            write_where(predicates, out)?;
            write_sign(out, ';')
        }
        Fields::Unit => {
            write_where(predicates, out)?;
            write_sign(out, ';')
        }
    }
}

#[tactic(auto, using(crate::proofs::Pieces::assoc))]
fn write_end(
    from: &Data,
    predicates: &[WherePredicate],
    out: &mut TokenStream,
) -> Result<(), AllocError>
    ensures { OnOk result (stream out.new ≡ stream out.old ++ print_end (map predicate_view predicates.now) (body_view from.now)) }
{
    match from {
        Data::Struct(fields, _) => write_struct_end(fields, predicates, out),
        Data::Enum(variants, _) => {
            write_where(predicates, out)?;
            write_braced_variants(variants, out)
        }
        Data::Union(fields, _) => {
            write_where(predicates, out)?;
            write_braced_fields(fields, out)
        }
    }
}

#[tactic(auto, using(crate::proofs::Pieces::assoc))]
pub(crate) fn write_body(from: &Data, out: &mut TokenStream) -> Result<(), AllocError>
    ensures { OnOk result (stream out.new ≡ stream out.old ++ print_body (body_view from.now)) }
{
    write_kind(from, out)?;
    write_end(from, &[], out)
}

#[tactic(auto, using(crate::proofs::Pieces::assoc))]
pub(crate) fn write_item(from: &DeriveInput, out: &mut TokenStream) -> Result<(), AllocError>
    ensures { OnOk result (stream out.new ≡ stream out.old ++ print_item (item_view from.now)) }
{
    write_attributes(&from.attrs, out)?;
    write_kind(&from.body, out)?;
    write_name(out, &from.ident)?;
    write_angle_params(&from.generics.params, out)?;
    write_end(&from.body, &from.generics.where_clause, out)
}
