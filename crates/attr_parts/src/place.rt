//! The places of types, paths and items: from the first to the last span that they hold, found without a list.
ghost use Rattle.std.specs.Prelude.{◌≡◌, [], ◌∷◌, map, option_map, unwrap_or};
ghost use Rattle.token_trees.specs.Token.{site};
ghost use Rattle.token_trees.specs.View.{trees, stream, name_view};
ghost use Rattle.syntax_trees.specs.Syntax.{tys_of, bounds_of, segments_of, generics_of, exprs_of};
ghost use Rattle.syntax_trees.specs.View.{ty as ty_view, path_view, expr_path_view, segment_view, arguments_view, generic_view, qself_view, expr as expr_view, bound_view, lifetime_view, member_view, maybe_lifetime_view, maybe_ty_view, maybe_qself_view};
ghost use Rattle.syntax_trees.specs.Item.{meta_view, attribute_view, field_view, fields_view, variant_view, param_view, predicate_view, body_view, item_view};
ghost use Rattle.attr_parts.specs.Places.{place_of, tokens_spans, lifetime_spans, maybe_lifetime_spans, member_spans, ty_spans, output_spans, tys_spans, bound_spans, bounds_spans, qself_spans, front_spans, path_spans, segments_spans, segment_spans, arguments_spans, generics_spans, generic_spans, expr_spans, expr_path_spans, exprs_spans, meta_spans, metas_spans, maybe_name_spans, field_spans, each_field_spans, fields_spans, variant_spans, each_variant_spans, param_spans, params_spans, lifetimes_spans, predicate_spans, predicates_spans, kind_span, struct_end_spans, end_spans, item_spans, reached};

use syntax_trees::{
    Attribute, Bound, Data, DeriveInput, Expr, ExprPath, Field, Fields, GenericArgument,
    GenericParam, Lifetime, Member, Meta, Path, PathArguments, PathSegment, QSelf, Ty, Variant,
    WherePredicate,
};
use token_trees::{Ident, Span, TokenStream, TokenTree};

// A span after what was reached before.
fn see(place: Option<Span>, at: Span) -> Option<Span>
    ensures { result ≡ reached place (at ∷ []) }
{
    match place {
        None => Some(at),
        Some(before) => Some(Span {
            file: before.file,
            lo: before.lo,
            hi: at.hi,
        }),
    }
}

#[tactic(auto, using(crate::proofs::Reached::reached_append))]
fn see_lifetime(place: Option<Span>, lifetime: &Lifetime) -> Option<Span>
    ensures { result ≡ reached place (lifetime_spans (lifetime_view lifetime.now)) }
{
    see(see(place, lifetime.span), lifetime.ident.span)
}

#[tactic(auto, using(crate::proofs::Reached::reached_append))]
fn see_maybe_lifetime(place: Option<Span>, from: &Option<Lifetime>) -> Option<Span>
    ensures { result ≡ reached place (maybe_lifetime_spans (maybe_lifetime_view from.now)) }
{
    match from {
        None => place,
        Some(lifetime) => see_lifetime(place, lifetime),
    }
}

#[tactic(auto, using(crate::proofs::Reached::reached_append))]
fn see_member(place: Option<Span>, member: &Member) -> Option<Span>
    ensures { result ≡ reached place (member_spans (member_view member.now)) }
{
    match member {
        Member::Named(name) => see(place, name.span),
        Member::Unnamed(_) => place,
    }
}

// The trees of a stream: what a group holds lies within its own span, which stands on both sides of it.
#[tactic(auto, using(crate::proofs::Reached::reached_toks))]
fn see_trees(place: Option<Span>, from: &[TokenTree]) -> Option<Span>
    ensures { result ≡ reached place (tokens_spans (trees from.now)) }
{
    let mut reach = place;
    for item in from {
        reach = see(reach, item.span());
    }
    reach
}

fn see_tokens(place: Option<Span>, tokens: &TokenStream) -> Option<Span>
    ensures { result ≡ reached place (tokens_spans (stream tokens.now)) }
{
    see_trees(place, tokens.trees())
}

#[cycle(see)]
#[tactic(auto, using(crate::proofs::Reached::reached_append))]
fn see_ty(place: Option<Span>, ty: &Ty) -> Option<Span>
    ensures { result ≡ reached place (ty_spans (ty_view ty.now)) }
{
    match ty {
        Ty::Array(elem, len) => see_expr(see_ty(place, elem), len),
        Ty::FnPtr { inputs, output } => see_output(see_tys(place, inputs), output),
        Ty::Group(inner) => see_ty(place, inner),
        Ty::ImplTrait(bounds) => see_bounds(place, bounds),
        Ty::Infer(span) => see(place, *span),
        Ty::Macro { path, tokens } => see_tokens(see_path(place, path), tokens),
        Ty::Never(span) => see(place, *span),
        Ty::Paren(inner) => see_ty(place, inner),
        Ty::Path { qself, path } => see_path(see_front(place, qself), path),
        Ty::Ptr { elem, .. } => see_ty(place, elem),
        Ty::Reference { lifetime, elem, .. } => see_ty(see_maybe_lifetime(place, lifetime), elem),
        Ty::Slice(elem) => see_ty(place, elem),
        Ty::TraitObject(bounds) => see_bounds(place, bounds),
        Ty::Tuple(elems) => see_tys(place, elems),
        Ty::Verbatim(tokens) => see_tokens(place, tokens),
    }
}

#[cycle(see)]
#[tactic(auto, using(crate::proofs::Reached::reached_append))]
fn see_output(place: Option<Span>, from: &Option<Box<Ty>>) -> Option<Span>
    ensures { result ≡ reached place (output_spans (maybe_ty_view from.now)) }
{
    match from {
        None => place,
        Some(inner) => see_ty(place, inner),
    }
}

#[cycle(see)]
#[tactic(auto, using(crate::proofs::Reached::reached_append))]
fn see_tys(place: Option<Span>, from: &[Ty]) -> Option<Span>
    ensures { result ≡ reached place (tys_spans (tys_of (map ty_view from.now))) }
{
    let mut reach = place;
    for item in from {
        reach = see_ty(reach, item);
    }
    reach
}

#[cycle(see)]
#[tactic(auto, using(crate::proofs::Reached::reached_append))]
fn see_bound(place: Option<Span>, bound: &Bound) -> Option<Span>
    ensures { result ≡ reached place (bound_spans (bound_view bound.now)) }
{
    match bound {
        Bound::Trait(path) => see_path(place, path),
        Bound::Lifetime(lifetime) => see_lifetime(place, lifetime),
    }
}

#[cycle(see)]
#[tactic(auto, using(crate::proofs::Reached::reached_append))]
fn see_bounds(place: Option<Span>, from: &[Bound]) -> Option<Span>
    ensures { result ≡ reached place (bounds_spans (bounds_of (map bound_view from.now))) }
{
    let mut reach = place;
    for item in from {
        reach = see_bound(reach, item);
    }
    reach
}

#[cycle(see)]
#[tactic(auto, using(crate::proofs::Reached::reached_append))]
fn see_front(place: Option<Span>, from: &Option<Box<QSelf>>) -> Option<Span>
    ensures { result ≡ reached place (front_spans (maybe_qself_view from.now)) }
{
    match from {
        None => place,
        Some(qself) => see_qself(place, qself),
    }
}

#[cycle(see)]
#[tactic(auto, using(crate::proofs::Reached::reached_append))]
fn see_qself(place: Option<Span>, qself: &QSelf) -> Option<Span>
    ensures { result ≡ reached place (qself_spans (qself_view qself.now)) }
{
    see_ty(place, &qself.ty)
}

#[cycle(see)]
#[tactic(auto, using(crate::proofs::Reached::reached_append))]
fn see_path(place: Option<Span>, path: &Path) -> Option<Span>
    ensures { result ≡ reached place (path_spans (path_view path.now)) }
{
    see_segments(place, &path.segments)
}

#[cycle(see)]
#[tactic(auto, using(crate::proofs::Reached::reached_append))]
fn see_segments(place: Option<Span>, from: &[PathSegment]) -> Option<Span>
    ensures { result ≡ reached place (segments_spans (segments_of (map segment_view from.now))) }
{
    let mut reach = place;
    for item in from {
        reach = see_segment(reach, item);
    }
    reach
}

#[cycle(see)]
#[tactic(auto, using(crate::proofs::Reached::reached_append))]
fn see_segment(place: Option<Span>, segment: &PathSegment) -> Option<Span>
    ensures { result ≡ reached place (segment_spans (segment_view segment.now)) }
{
    see_arguments(see(place, segment.ident.span), &segment.arguments)
}

#[cycle(see)]
#[tactic(auto, using(crate::proofs::Reached::reached_append))]
fn see_arguments(place: Option<Span>, arguments: &PathArguments) -> Option<Span>
    ensures { result ≡ reached place (arguments_spans (arguments_view arguments.now)) }
{
    match arguments {
        PathArguments::None => place,
        PathArguments::Angle { args, .. } => see_generics(place, args),
        PathArguments::Paren { inputs, output } => see_output(see_tys(place, inputs), output),
    }
}

#[cycle(see)]
#[tactic(auto, using(crate::proofs::Reached::reached_append))]
fn see_generic(place: Option<Span>, argument: &GenericArgument) -> Option<Span>
    ensures { result ≡ reached place (generic_spans (generic_view argument.now)) }
{
    match argument {
        GenericArgument::Lifetime(lifetime) => see_lifetime(place, lifetime),
        GenericArgument::Ty(ty) => see_ty(place, ty),
        GenericArgument::Const(value) => see_expr(place, value),
        GenericArgument::AssocType { ident, ty } => see_ty(see(place, ident.span), ty),
        GenericArgument::AssocConst { ident, value } => see_expr(see(place, ident.span), value),
        GenericArgument::Constraint { ident, bounds } => see_bounds(see(place, ident.span), bounds),
    }
}

#[cycle(see)]
#[tactic(auto, using(crate::proofs::Reached::reached_append))]
fn see_generics(place: Option<Span>, from: &[GenericArgument]) -> Option<Span>
    ensures { result ≡ reached place (generics_spans (generics_of (map generic_view from.now))) }
{
    let mut reach = place;
    for item in from {
        reach = see_generic(reach, item);
    }
    reach
}

#[cycle(see)]
#[tactic(auto, using(crate::proofs::Reached::reached_append))]
fn see_expr(place: Option<Span>, expr: &Expr) -> Option<Span>
    ensures { result ≡ reached place (expr_spans (expr_view expr.now)) }
{
    match expr {
        Expr::Binary(left, operator, right) => see_expr(
            see_tokens(see_expr(place, left), operator),
            right,
        ),
        Expr::Call(function, arguments) => see_exprs(see_expr(place, function), arguments),
        Expr::Cast(value, ty) => see_ty(see_expr(place, value), ty),
        Expr::Field(value, member) => see_member(see_expr(place, value), member),
        Expr::Index(value, index) => see_expr(see_expr(place, value), index),
        Expr::Lit(literal) => see(place, literal.span),
        Expr::Paren(inner) => see_expr(place, inner),
        Expr::Path(path) => see_expr_path(place, path),
        Expr::Unary(operator, value) => see_expr(see_tokens(place, operator), value),
        Expr::Verbatim(tokens) => see_tokens(place, tokens),
    }
}

#[cycle(see)]
#[tactic(auto, using(crate::proofs::Reached::reached_append))]
fn see_expr_path(place: Option<Span>, path: &ExprPath) -> Option<Span>
    ensures { result ≡ reached place (expr_path_spans (expr_path_view path.now)) }
{
    see_path(see_front(place, &path.qself), &path.path)
}

#[cycle(see)]
#[tactic(auto, using(crate::proofs::Reached::reached_append))]
fn see_exprs(place: Option<Span>, from: &[Expr]) -> Option<Span>
    ensures { result ≡ reached place (exprs_spans (exprs_of (map expr_view from.now))) }
{
    let mut reach = place;
    for item in from {
        reach = see_expr(reach, item);
    }
    reach
}

#[tactic(auto, using(crate::proofs::Reached::reached_append, crate::proofs::Reached::reached_twice))]
fn see_meta(place: Option<Span>, meta: &Meta) -> Option<Span>
    ensures { result ≡ reached place (meta_spans (meta_view meta.now)) }
{
    match meta {
        Meta::Path(path) => see_path(place, path),
        Meta::List { path, span, .. } => see(see_path(place, path), *span),
        Meta::NameValue { path, value } => see_tokens(see_path(place, path), value),
    }
}

#[tactic(auto, using(crate::proofs::Reached::reached_append))]
fn see_attribute(place: Option<Span>, attribute: &Attribute) -> Option<Span>
    ensures { result ≡ reached place (meta_spans (attribute_view attribute.now)) }
{
    see_meta(place, &attribute.meta)
}

#[tactic(auto, using(crate::proofs::Reached::reached_append))]
fn see_attributes(place: Option<Span>, from: &[Attribute]) -> Option<Span>
    ensures { result ≡ reached place (metas_spans (map attribute_view from.now)) }
{
    let mut reach = place;
    for item in from {
        reach = see_attribute(reach, item);
    }
    reach
}

#[tactic(auto, using(crate::proofs::Reached::reached_append))]
fn see_label(place: Option<Span>, from: &Option<Ident>) -> Option<Span>
    ensures { result ≡ reached place (maybe_name_spans (option_map name_view from.now)) }
{
    match from {
        None => place,
        Some(name) => see(place, name.span),
    }
}

#[tactic(auto, using(crate::proofs::Reached::reached_append))]
fn see_field(place: Option<Span>, field: &Field) -> Option<Span>
    ensures { result ≡ reached place (field_spans (field_view field.now)) }
{
    let attributes = see_attributes(place, &field.attrs);
    see_ty(see_label(attributes, &field.ident), &field.ty)
}

#[tactic(auto, using(crate::proofs::Reached::reached_append))]
fn see_each_field(place: Option<Span>, from: &[Field]) -> Option<Span>
    ensures { result ≡ reached place (each_field_spans (map field_view from.now)) }
{
    let mut reach = place;
    for item in from {
        reach = see_field(reach, item);
    }
    reach
}

#[tactic(auto, using(crate::proofs::Reached::reached_append))]
fn see_fields(place: Option<Span>, fields: &Fields) -> Option<Span>
    ensures { result ≡ reached place (fields_spans (fields_view fields.now)) }
{
    match fields {
        Fields::Named(fields) => see_each_field(place, fields),
        Fields::Unnamed(fields) => see_each_field(place, fields),
        Fields::Unit => place,
    }
}

#[tactic(auto, using(crate::proofs::Reached::reached_append))]
fn see_variant(place: Option<Span>, variant: &Variant) -> Option<Span>
    ensures { result ≡ reached place (variant_spans (variant_view variant.now)) }
{
    let attributes = see_attributes(place, &variant.attrs);
    see_fields(see(attributes, variant.ident.span), &variant.fields)
}

#[tactic(auto, using(crate::proofs::Reached::reached_append))]
fn see_each_variant(place: Option<Span>, from: &[Variant]) -> Option<Span>
    ensures { result ≡ reached place (each_variant_spans (map variant_view from.now)) }
{
    let mut reach = place;
    for item in from {
        reach = see_variant(reach, item);
    }
    reach
}

#[tactic(auto, using(crate::proofs::Reached::reached_append))]
fn see_param(place: Option<Span>, param: &GenericParam) -> Option<Span>
    ensures { result ≡ reached place (param_spans (param_view param.now)) }
{
    match param {
        GenericParam::Ty { ident, bounds } => see_bounds(see(place, ident.span), bounds),
        GenericParam::Lifetime(lifetime) => see_lifetime(place, lifetime),
        GenericParam::Const { ident, ty } => see_ty(see(place, ident.span), ty),
    }
}

#[tactic(auto, using(crate::proofs::Reached::reached_append))]
fn see_params(place: Option<Span>, from: &[GenericParam]) -> Option<Span>
    ensures { result ≡ reached place (params_spans (map param_view from.now)) }
{
    let mut reach = place;
    for item in from {
        reach = see_param(reach, item);
    }
    reach
}

#[tactic(auto, using(crate::proofs::Reached::reached_append))]
fn see_lifetimes(place: Option<Span>, from: &[Lifetime]) -> Option<Span>
    ensures { result ≡ reached place (lifetimes_spans (map lifetime_view from.now)) }
{
    let mut reach = place;
    for item in from {
        reach = see_lifetime(reach, item);
    }
    reach
}

#[tactic(auto, using(crate::proofs::Reached::reached_append))]
fn see_predicate(place: Option<Span>, predicate: &WherePredicate) -> Option<Span>
    ensures { result ≡ reached place (predicate_spans (predicate_view predicate.now)) }
{
    match predicate {
        WherePredicate::Ty { ty, bounds } => see_bounds(see_ty(place, ty), bounds),
        WherePredicate::Lifetime { lifetime, bounds } => see_lifetimes(
            see_lifetime(place, lifetime),
            bounds,
        ),
    }
}

#[tactic(auto, using(crate::proofs::Reached::reached_append))]
fn see_predicates(place: Option<Span>, from: &[WherePredicate]) -> Option<Span>
    ensures { result ≡ reached place (predicates_spans (map predicate_view from.now)) }
{
    let mut reach = place;
    for item in from {
        reach = see_predicate(reach, item);
    }
    reach
}

// The word that the item begins with.
fn kind_place(body: &Data) -> Span
    ensures { result ≡ kind_span (body_view body.now) }
{
    match body {
        Data::Struct(_, at) => *at,
        Data::Enum(_, at) => *at,
        Data::Union(_, at) => *at,
    }
}

// The fields of a struct and its predicates.
#[tactic(auto, using(crate::proofs::Reached::reached_append))]
fn see_struct_end(
    place: Option<Span>,
    predicates: &[WherePredicate],
    fields: &Fields,
) -> Option<Span>
    ensures { result ≡ reached place (struct_end_spans (map predicate_view predicates.now) (fields_view fields.now)) }
{
    match fields {
        Fields::Named(fields) => see_each_field(see_predicates(place, predicates), fields),
        Fields::Unnamed(fields) => see_predicates(see_each_field(place, fields), predicates),
        Fields::Unit => see_predicates(place, predicates),
    }
}

#[tactic(auto, using(crate::proofs::Reached::reached_append))]
fn see_end(place: Option<Span>, predicates: &[WherePredicate], body: &Data) -> Option<Span>
    ensures { result ≡ reached place (end_spans (map predicate_view predicates.now) (body_view body.now)) }
{
    match body {
        Data::Struct(fields, _) => see_struct_end(place, predicates, fields),
        Data::Enum(variants, _) => see_each_variant(see_predicates(place, predicates), variants),
        Data::Union(fields, _) => see_each_field(see_predicates(place, predicates), fields),
    }
}

#[tactic(auto, using(crate::proofs::Reached::reached_append))]
fn see_item(place: Option<Span>, item: &DeriveInput) -> Option<Span>
    ensures { result ≡ reached place (item_spans (item_view item.now)) }
{
    let attributes = see_attributes(place, &item.attrs);
    let head = see(see(attributes, kind_place(&item.body)), item.ident.span);
    let params = see_params(head, &item.generics.params);
    see_end(params, &item.generics.where_clause, &item.body)
}

// The place that was reached, `call_site` where none was.
fn or_site(place: Option<Span>) -> Span
    ensures { result ≡ unwrap_or place site }
{
    match place {
        Some(span) => span,
        None => Span::call_site(),
    }
}

/// The place of a type: from the first to the last span that it holds, in the order of its printing; `call_site` where it
/// holds none. Takes no memory.
#[tactic(auto, using(crate::proofs::Reached::reached_place))]
pub fn place_of_type(ty: &Ty) -> Span
    ensures { result ≡ place_of (ty_spans (ty_view ty.now)) }
{
    or_site(see_ty(None, ty))
}

/// The place of a path: from the first to the last span that it holds, in the order of its printing; `call_site` where it
/// holds none. Takes no memory.
#[tactic(auto, using(crate::proofs::Reached::reached_place))]
pub fn place_of_path(path: &Path) -> Span
    ensures { result ≡ place_of (path_spans (path_view path.now)) }
{
    or_site(see_path(None, path))
}

/// The place of a field: from the first to the last span that it holds, in the order of its printing; `call_site` where it
/// holds none. Takes no memory.
#[tactic(auto, using(crate::proofs::Reached::reached_place))]
pub fn place_of_field(field: &Field) -> Span
    ensures { result ≡ place_of (field_spans (field_view field.now)) }
{
    or_site(see_field(None, field))
}

/// The place of a variant: from the first to the last span that it holds, in the order of its printing; `call_site` where it
/// holds none. Takes no memory.
#[tactic(auto, using(crate::proofs::Reached::reached_place))]
pub fn place_of_variant(variant: &Variant) -> Span
    ensures { result ≡ place_of (variant_spans (variant_view variant.now)) }
{
    or_site(see_variant(None, variant))
}

/// The place of an item: from the first to the last span that it holds, in the order of its printing; `call_site` where it
/// holds none. Takes no memory.
#[tactic(auto, using(crate::proofs::Reached::reached_place))]
pub fn place_of_item(item: &DeriveInput) -> Span
    ensures { result ≡ place_of (item_spans (item_view item.now)) }
{
    or_site(see_item(None, item))
}
