//! The lifetimes of a type, collected.
ghost use Rattle.std.specs.Prelude.{◌≡◌, [], ◌∷◌, ◌++◌, None, OnOk, OnErr, map};
ghost use Rattle.token_trees.specs.Token.{toks_of, mark};
ghost use Rattle.token_trees.specs.View.{tree, trees, name_view};
ghost use Rattle.syntax_trees.specs.Metas.{is_joint};
ghost use Rattle.syntax_trees.specs.Syntax.{tys_of, segments_of, generics_of};
ghost use Rattle.syntax_trees.specs.View.{ty as ty_view, path_view, segment_view, arguments_view, generic_view, qself_view, maybe_qself_view, lifetime_view, maybe_lifetime_view};
ghost use Rattle.attr_parts.specs.Lifetimes.{token_lifetimes, tokens_lifetimes, next_lifetimes, quote_at, quote_after, quoted, maybe_lifetime, lifetimes_of, all_lifetimes, maybe_qself_lifetimes, qself_lifetimes, path_lifetimes, segments_lifetimes, segment_lifetimes, arguments_lifetimes, generics_lifetimes, generic_lifetimes, lifetimes, added, AddsFront};

use std::alloc::{AllocError, Global};
use std::collections::BTreeSet;
use syntax_trees::{GenericArgument, Lifetime, Path, PathArguments, PathSegment, QSelf, Ty};
use token_trees::{Ident, Punct, Spacing, Span, TokenTree};

// One lifetime, added.
#[tactic(auto, using(crate::proofs::Added::inserted, crate::proofs::Added::adds_none))]
fn add(out: &mut BTreeSet<Lifetime>, lifetime: Lifetime) -> Result<(), AllocError>
    ensures ok { OnOk result (lifetimes out.new ≡ added (lifetimes out.old) (lifetime_view lifetime ∷ [])) }
    ensures err { OnErr result (lifetimes out.new ≡ lifetimes out.old) }
{
    let _ = out.insert(lifetime)?;
    Ok(())
}

#[tactic(auto, using(crate::proofs::Added::adds_none, crate::proofs::Added::adds_first, crate::proofs::Added::adds_later, crate::proofs::Added::added_append))]
fn add_copy(
    alloc: Global,
    lifetime: &Lifetime,
    out: &mut BTreeSet<Lifetime>,
) -> Result<(), AllocError>
    ensures ok { OnOk result (lifetimes out.new ≡ added (lifetimes out.old) (lifetime_view lifetime.now ∷ [])) }
    ensures err { OnErr result (AddsFront (lifetimes out.old) (lifetimes out.new) (lifetime_view lifetime.now ∷ [])) }
{
    let copy = lifetime.try_clone(alloc)?;
    add(out, copy)?;
    Ok(())
}

#[tactic(auto, using(crate::proofs::Added::adds_none, crate::proofs::Added::adds_first, crate::proofs::Added::adds_later, crate::proofs::Added::added_append))]
fn add_maybe(
    alloc: Global,
    from: &Option<Lifetime>,
    out: &mut BTreeSet<Lifetime>,
) -> Result<(), AllocError>
    ensures ok { OnOk result (lifetimes out.new ≡ added (lifetimes out.old) (maybe_lifetime (maybe_lifetime_view from.now))) }
    ensures err { OnErr result (AddsFront (lifetimes out.old) (lifetimes out.new) (maybe_lifetime (maybe_lifetime_view from.now))) }
{
    match from {
        None => Ok(()),
        Some(lifetime) => add_copy(alloc, lifetime, out),
    }
}

// Where a quote that belongs to the next token stands.
fn quote_of(token: &TokenTree) -> Option<Span>
    ensures { result ≡ quote_at (tree token.now) }
{
    match token {
        TokenTree::Ident(_) => None,
        TokenTree::Punct(punct) => quote_mark(*punct),
        TokenTree::Literal(_) => None,
        TokenTree::Group(_) => None,
    }
}

fn quote_mark(punct: Punct) -> Option<Span>
    ensures { result ≡ quote_at (mark punct.ch punct.spacing punct.span) }
{
    if punct.ch == '\'' && is_tight(punct.spacing) {
        Some(punct.span)
    } else {
        None
    }
}

// Whether the character belongs to the token after it.
fn is_tight(spacing: Spacing) -> bool
    ensures { result ≡ is_joint spacing }
{
    match spacing {
        Spacing::Alone => false,
        Spacing::Joint => true,
    }
}

// Where such a quote stands before the token after this one.
fn next_quote(before: Option<Span>, token: &TokenTree) -> Option<Span>
    ensures { result ≡ quote_after before (tree token.now) }
{
    match before {
        None => quote_of(token),
        Some(_) => None,
    }
}

#[tactic(auto, using(crate::proofs::Added::adds_none, crate::proofs::Added::adds_first, crate::proofs::Added::adds_later, crate::proofs::Added::added_append))]
fn add_named(
    alloc: Global,
    at: Span,
    name: &Ident,
    out: &mut BTreeSet<Lifetime>,
) -> Result<(), AllocError>
    ensures ok { OnOk result (lifetimes out.new ≡ added (lifetimes out.old) (record { name = name_view name.now; span = at } ∷ [])) }
    ensures err { OnErr result (AddsFront (lifetimes out.old) (lifetimes out.new) (record { name = name_view name.now; span = at } ∷ [])) }
{
    let ident = name.try_clone(alloc)?;
    add(out, Lifetime { ident, span: at })?;
    Ok(())
}

#[tactic(auto, using(crate::proofs::Added::adds_none, crate::proofs::Added::adds_first, crate::proofs::Added::adds_later, crate::proofs::Added::added_append))]
fn add_quoted(
    alloc: Global,
    at: Span,
    token: &TokenTree,
    out: &mut BTreeSet<Lifetime>,
) -> Result<(), AllocError>
    ensures ok { OnOk result (lifetimes out.new ≡ added (lifetimes out.old) (quoted at (tree token.now))) }
    ensures err { OnErr result (AddsFront (lifetimes out.old) (lifetimes out.new) (quoted at (tree token.now))) }
{
    match token {
        TokenTree::Ident(name) => add_named(alloc, at, name, out),
        TokenTree::Punct(_) => Ok(()),
        TokenTree::Literal(_) => Ok(()),
        TokenTree::Group(_) => Ok(()),
    }
}

#[cycle(trees)]
#[tactic(auto, using(crate::proofs::Added::adds_none, crate::proofs::Added::adds_first, crate::proofs::Added::adds_later, crate::proofs::Added::added_append))]
fn collect_group(
    alloc: Global,
    token: &TokenTree,
    out: &mut BTreeSet<Lifetime>,
) -> Result<(), AllocError>
    ensures ok { OnOk result (lifetimes out.new ≡ added (lifetimes out.old) (token_lifetimes (tree token.now))) }
    ensures err { OnErr result (AddsFront (lifetimes out.old) (lifetimes out.new) (token_lifetimes (tree token.now))) }
{
    match token {
        TokenTree::Ident(_) => Ok(()),
        TokenTree::Punct(_) => Ok(()),
        TokenTree::Literal(_) => Ok(()),
        TokenTree::Group(group) => collect_trees(alloc, group.stream.trees(), out),
    }
}

#[cycle(trees)]
#[tactic(auto, using(crate::proofs::Added::adds_none, crate::proofs::Added::adds_first, crate::proofs::Added::adds_later, crate::proofs::Added::added_append))]
fn collect_trees(
    alloc: Global,
    from: &[TokenTree],
    out: &mut BTreeSet<Lifetime>,
) -> Result<(), AllocError>
    ensures ok { OnOk result (lifetimes out.new ≡ added (lifetimes out.old) (tokens_lifetimes None (toks_of (trees from.now)))) }
    ensures err { OnErr result (AddsFront (lifetimes out.old) (lifetimes out.new) (tokens_lifetimes None (toks_of (trees from.now)))) }
{
    let mut before = None;
    for item in from {
        collect_next(alloc, before, item, out)?;
        before = next_quote(before, item);
    }
    Ok(())
}

#[cycle(trees)]
fn collect_next(
    alloc: Global,
    before: Option<Span>,
    token: &TokenTree,
    out: &mut BTreeSet<Lifetime>,
) -> Result<(), AllocError>
    ensures ok { OnOk result (lifetimes out.new ≡ added (lifetimes out.old) (next_lifetimes before (tree token.now))) }
    ensures err { OnErr result (AddsFront (lifetimes out.old) (lifetimes out.new) (next_lifetimes before (tree token.now))) }
{
    match before {
        None => collect_group(alloc, token, out),
        Some(at) => add_quoted(alloc, at, token, out),
    }
}

/// Adds the lifetimes that stand in the type: those of references, of angle arguments, and of a macro's tokens; it goes into
/// the types of references, slices, arrays, pointers, parentheses, tuples and arguments. One that the set has by name stays as
/// it is. Where memory runs out, some of the type's lifetimes are added, and nothing else.
#[cycle(collect)]
#[tactic(auto, using(crate::proofs::Added::adds_none, crate::proofs::Added::adds_first, crate::proofs::Added::adds_later, crate::proofs::Added::added_append))]
pub fn collect_lifetimes(
    alloc: Global,
    ty: &Ty,
    out: &mut BTreeSet<Lifetime>,
) -> Result<(), AllocError>
    ensures ok { OnOk result (lifetimes out.new ≡ added (lifetimes out.old) (lifetimes_of (ty_view ty.now))) }
    ensures err { OnErr result (AddsFront (lifetimes out.old) (lifetimes out.new) (lifetimes_of (ty_view ty.now))) }
{
    match ty {
        Ty::Array(elem, _) => collect_lifetimes(alloc, elem, out),
        Ty::FnPtr { .. } => Ok(()),
        Ty::Group(inner) => collect_lifetimes(alloc, inner, out),
        Ty::ImplTrait(_) => Ok(()),
        Ty::Infer(_) => Ok(()),
        Ty::Macro { tokens, .. } => collect_trees(alloc, tokens.trees(), out),
        Ty::Never(_) => Ok(()),
        Ty::Paren(inner) => collect_lifetimes(alloc, inner, out),
        Ty::Path { qself, path } => {
            collect_front(alloc, qself, out)?;
            collect_path(alloc, path, out)?;
            Ok(())
        }
        Ty::Ptr { elem, .. } => collect_lifetimes(alloc, elem, out),
        Ty::Reference { lifetime, elem, .. } => collect_reference(alloc, lifetime, elem, out),
        Ty::Slice(elem) => collect_lifetimes(alloc, elem, out),
        Ty::TraitObject(_) => Ok(()),
        Ty::Tuple(elems) => collect_tys(alloc, elems, out),
        Ty::Verbatim(_) => Ok(()),
    }
}

#[cycle(collect)]
#[tactic(auto, using(crate::proofs::Added::adds_none, crate::proofs::Added::adds_first, crate::proofs::Added::adds_later, crate::proofs::Added::added_append))]
fn collect_reference(
    alloc: Global,
    lifetime: &Option<Lifetime>,
    elem: &Ty,
    out: &mut BTreeSet<Lifetime>,
) -> Result<(), AllocError>
    ensures ok { OnOk result (lifetimes out.new ≡ added (lifetimes out.old) (maybe_lifetime (maybe_lifetime_view lifetime.now) ++ lifetimes_of (ty_view elem.now))) }
    ensures err { OnErr result (AddsFront (lifetimes out.old) (lifetimes out.new) (maybe_lifetime (maybe_lifetime_view lifetime.now) ++ lifetimes_of (ty_view elem.now))) }
{
    add_maybe(alloc, lifetime, out)?;
    collect_lifetimes(alloc, elem, out)?;
    Ok(())
}

#[cycle(collect)]
#[tactic(auto, using(crate::proofs::Added::adds_none, crate::proofs::Added::adds_first, crate::proofs::Added::adds_later, crate::proofs::Added::added_append))]
fn collect_front(
    alloc: Global,
    from: &Option<Box<QSelf>>,
    out: &mut BTreeSet<Lifetime>,
) -> Result<(), AllocError>
    ensures ok { OnOk result (lifetimes out.new ≡ added (lifetimes out.old) (maybe_qself_lifetimes (maybe_qself_view from.now))) }
    ensures err { OnErr result (AddsFront (lifetimes out.old) (lifetimes out.new) (maybe_qself_lifetimes (maybe_qself_view from.now))) }
{
    match from {
        None => Ok(()),
        Some(qself) => collect_qself(alloc, qself, out),
    }
}

#[cycle(collect)]
#[tactic(auto, using(crate::proofs::Added::adds_none, crate::proofs::Added::adds_first, crate::proofs::Added::adds_later, crate::proofs::Added::added_append))]
fn collect_qself(
    alloc: Global,
    qself: &QSelf,
    out: &mut BTreeSet<Lifetime>,
) -> Result<(), AllocError>
    ensures ok { OnOk result (lifetimes out.new ≡ added (lifetimes out.old) (qself_lifetimes (qself_view qself.now))) }
    ensures err { OnErr result (AddsFront (lifetimes out.old) (lifetimes out.new) (qself_lifetimes (qself_view qself.now))) }
{
    collect_lifetimes(alloc, &qself.ty, out)
}

#[cycle(collect)]
#[tactic(auto, using(crate::proofs::Added::adds_none, crate::proofs::Added::adds_first, crate::proofs::Added::adds_later, crate::proofs::Added::added_append))]
fn collect_path(alloc: Global, path: &Path, out: &mut BTreeSet<Lifetime>) -> Result<(), AllocError>
    ensures ok { OnOk result (lifetimes out.new ≡ added (lifetimes out.old) (path_lifetimes (path_view path.now))) }
    ensures err { OnErr result (AddsFront (lifetimes out.old) (lifetimes out.new) (path_lifetimes (path_view path.now))) }
{
    collect_segments(alloc, &path.segments, out)
}

#[cycle(collect)]
#[tactic(auto, using(crate::proofs::Added::adds_none, crate::proofs::Added::adds_first, crate::proofs::Added::adds_later, crate::proofs::Added::added_append))]
fn collect_tys(alloc: Global, from: &[Ty], out: &mut BTreeSet<Lifetime>) -> Result<(), AllocError>
    ensures ok { OnOk result (lifetimes out.new ≡ added (lifetimes out.old) (all_lifetimes (tys_of (map ty_view from.now)))) }
    ensures err { OnErr result (AddsFront (lifetimes out.old) (lifetimes out.new) (all_lifetimes (tys_of (map ty_view from.now)))) }
{
    for item in from {
        collect_lifetimes(alloc, item, out)?;
    }
    Ok(())
}

#[cycle(collect)]
#[tactic(auto, using(crate::proofs::Added::adds_none, crate::proofs::Added::adds_first, crate::proofs::Added::adds_later, crate::proofs::Added::added_append))]
fn collect_segments(
    alloc: Global,
    from: &[PathSegment],
    out: &mut BTreeSet<Lifetime>,
) -> Result<(), AllocError>
    ensures ok { OnOk result (lifetimes out.new ≡ added (lifetimes out.old) (segments_lifetimes (segments_of (map segment_view from.now)))) }
    ensures err { OnErr result (AddsFront (lifetimes out.old) (lifetimes out.new) (segments_lifetimes (segments_of (map segment_view from.now)))) }
{
    for item in from {
        collect_segment(alloc, item, out)?;
    }
    Ok(())
}

#[cycle(collect)]
#[tactic(auto, using(crate::proofs::Added::adds_none, crate::proofs::Added::adds_first, crate::proofs::Added::adds_later, crate::proofs::Added::added_append))]
fn collect_segment(
    alloc: Global,
    segment: &PathSegment,
    out: &mut BTreeSet<Lifetime>,
) -> Result<(), AllocError>
    ensures ok { OnOk result (lifetimes out.new ≡ added (lifetimes out.old) (segment_lifetimes (segment_view segment.now))) }
    ensures err { OnErr result (AddsFront (lifetimes out.old) (lifetimes out.new) (segment_lifetimes (segment_view segment.now))) }
{
    collect_arguments(alloc, &segment.arguments, out)
}

#[cycle(collect)]
#[tactic(auto, using(crate::proofs::Added::adds_none, crate::proofs::Added::adds_first, crate::proofs::Added::adds_later, crate::proofs::Added::added_append))]
fn collect_arguments(
    alloc: Global,
    arguments: &PathArguments,
    out: &mut BTreeSet<Lifetime>,
) -> Result<(), AllocError>
    ensures ok { OnOk result (lifetimes out.new ≡ added (lifetimes out.old) (arguments_lifetimes (arguments_view arguments.now))) }
    ensures err { OnErr result (AddsFront (lifetimes out.old) (lifetimes out.new) (arguments_lifetimes (arguments_view arguments.now))) }
{
    match arguments {
        PathArguments::None => Ok(()),
        PathArguments::Angle { args, .. } => collect_generics(alloc, args, out),
        PathArguments::Paren { .. } => Ok(()),
    }
}

#[cycle(collect)]
#[tactic(auto, using(crate::proofs::Added::adds_none, crate::proofs::Added::adds_first, crate::proofs::Added::adds_later, crate::proofs::Added::added_append))]
fn collect_generics(
    alloc: Global,
    from: &[GenericArgument],
    out: &mut BTreeSet<Lifetime>,
) -> Result<(), AllocError>
    ensures ok { OnOk result (lifetimes out.new ≡ added (lifetimes out.old) (generics_lifetimes (generics_of (map generic_view from.now)))) }
    ensures err { OnErr result (AddsFront (lifetimes out.old) (lifetimes out.new) (generics_lifetimes (generics_of (map generic_view from.now)))) }
{
    for item in from {
        collect_generic(alloc, item, out)?;
    }
    Ok(())
}

#[cycle(collect)]
#[tactic(auto, using(crate::proofs::Added::adds_none, crate::proofs::Added::adds_first, crate::proofs::Added::adds_later, crate::proofs::Added::added_append))]
fn collect_generic(
    alloc: Global,
    argument: &GenericArgument,
    out: &mut BTreeSet<Lifetime>,
) -> Result<(), AllocError>
    ensures ok { OnOk result (lifetimes out.new ≡ added (lifetimes out.old) (generic_lifetimes (generic_view argument.now))) }
    ensures err { OnErr result (AddsFront (lifetimes out.old) (lifetimes out.new) (generic_lifetimes (generic_view argument.now))) }
{
    match argument {
        GenericArgument::Lifetime(lifetime) => add_copy(alloc, lifetime, out),
        GenericArgument::Ty(ty) => collect_lifetimes(alloc, ty, out),
        GenericArgument::Const(_) => Ok(()),
        GenericArgument::AssocType { ty, .. } => collect_lifetimes(alloc, ty, out),
        GenericArgument::AssocConst { .. } => Ok(()),
        GenericArgument::Constraint { .. } => Ok(()),
    }
}
