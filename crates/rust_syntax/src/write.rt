//! The tokens of types, paths and expressions, written one after another.
ghost use Rattle.std.specs.Fmt.{decimal};
ghost use Rattle.std.specs.Prelude.{◌≡◌, OnOk, IfOk, map, ◌++◌, ◌∷◌, [], cond, nat_eq, codes, true, false};
ghost use Rattle.token_trees.specs.View.{stream, name_view, fixed_view};
ghost use Rattle.token_trees.specs.Token.{word, mark, fixed, group, toks_of, site, digits};
ghost use Rattle.syntax_trees.specs.Syntax.{tys_of, bounds_of, segments_of, generics_of, exprs_of, ty_macro, ty_pointer, ty_reference, ty_tuple, angle, ex_field};
ghost use Rattle.syntax_trees.specs.View.{ty, path_view, expr_path_view, segment_view, arguments_view, generic_view, qself_view, expr, bound_view, lifetime_view, member_view, lit_str_view, maybe_lifetime_view, maybe_ty_view, maybe_qself_view};
ghost use Rattle.syntax_printing.specs.Print.{when, sign, keyword, colons, arrow, within_parens, print_name, print_lifetime, print_maybe_lifetime, print_lit_str, print_member, print_ty, print_tys, print_output, print_bound, print_bounds, print_path, print_segment, print_segments, print_arguments, print_generic, print_generics, print_expr, print_exprs, print_qself, print_front, print_behind, print_expr_path, position};

use std::alloc::AllocError;
use syntax_trees::{
    Bound, Expr, ExprPath, GenericArgument, Lifetime, LitStr, Member, Path, PathArguments,
    PathSegment, QSelf, Ty,
};
use token_trees::{Delimiter, Ident, Lit, Literal, Punct, Spacing, Span, TokenStream, TokenTree};

pub(crate) fn write_sign(out: &mut TokenStream, ch: char) -> Result<(), AllocError>
    ensures { OnOk result (stream out.new ≡ stream out.old ++ sign ch ∷ []) }
{
    out.push_mark(ch, Spacing::Alone)
}

pub(crate) fn write_word(out: &mut TokenStream, text: &str, span: Span) -> Result<(), AllocError>
    ensures { OnOk result (stream out.new ≡ stream out.old ++ word text.now span ∷ []) }
{
    out.push_word(text, span)
}

pub(crate) fn write_keyword(out: &mut TokenStream, text: &str) -> Result<(), AllocError>
    ensures { OnOk result (stream out.new ≡ stream out.old ++ keyword text.now ∷ []) }
{
    out.push_word(text, Span::call_site())
}

pub(crate) fn write_name(out: &mut TokenStream, name: &Ident) -> Result<(), AllocError>
    ensures { OnOk result (stream out.new ≡ stream out.old ++ print_name (name_view name.now) ∷ []) }
{
    out.push_word(&name.text, name.span)
}

fn write_colons(out: &mut TokenStream) -> Result<(), AllocError>
    ensures { OnOk result (stream out.new ≡ stream out.old ++ colons) }
{
    out.push_mark(':', Spacing::Joint)?;
    write_sign(out, ':')
}

fn write_arrow(out: &mut TokenStream) -> Result<(), AllocError>
    ensures { OnOk result (stream out.new ≡ stream out.old ++ arrow) }
{
    out.push_mark('-', Spacing::Joint)?;
    write_sign(out, '>')
}

fn write_character(
    out: &mut TokenStream,
    ch: char,
    spacing: Spacing,
    span: Span,
) -> Result<(), AllocError>
    ensures { OnOk result (stream out.new ≡ stream out.old ++ mark ch spacing span ∷ []) }
{
    out.push(TokenTree::Punct(Punct { ch, spacing, span }))
}

pub(crate) fn write_lifetime(out: &mut TokenStream, lifetime: &Lifetime) -> Result<(), AllocError>
    ensures { OnOk result (stream out.new ≡ stream out.old ++ print_lifetime (lifetime_view lifetime.now)) }
{
    write_character(out, '\'', Spacing::Joint, lifetime.span)?;
    write_name(out, &lifetime.ident)
}

fn write_maybe_mut(out: &mut TokenStream, mutable: bool) -> Result<(), AllocError>
    ensures { OnOk result (stream out.new ≡ stream out.old ++ when mutable (keyword (codes "mut") ∷ [])) }
{
    if mutable {
        write_keyword(out, "mut")?;
    }
    Ok(())
}

fn write_mutability(out: &mut TokenStream, mutable: bool) -> Result<(), AllocError>
    ensures { OnOk result (stream out.new ≡ stream out.old ++ keyword (cond mutable (codes "mut") (codes "const")) ∷ []) }
{
    if mutable {
        write_keyword(out, "mut")?;
    } else {
        write_keyword(out, "const")?;
    }
    Ok(())
}

fn write_maybe_colons(out: &mut TokenStream, present: bool) -> Result<(), AllocError>
    ensures { OnOk result (stream out.new ≡ stream out.old ++ when present colons) }
{
    if present {
        write_colons(out)?;
    }
    Ok(())
}

pub(crate) fn write_separator(
    out: &mut TokenStream,
    needed: bool,
    ch: char,
) -> Result<(), AllocError>
    ensures { OnOk result (stream out.new ≡ stream out.old ++ when needed (sign ch ∷ [])) }
{
    if needed {
        write_sign(out, ch)?;
    }
    Ok(())
}

fn write_end_of_front(out: &mut TokenStream, left: u32) -> Result<(), AllocError>
    ensures { OnOk result (stream out.new ≡ stream out.old ++ when (nat_eq left 1) (sign 62 ∷ [])) }
{
    if left == 1 {
        write_sign(out, '>')?;
    }
    Ok(())
}

fn write_maybe_lifetime(
    out: &mut TokenStream,
    lifetime: &Option<Lifetime>,
) -> Result<(), AllocError>
    ensures { OnOk result (stream out.new ≡ stream out.old ++ print_maybe_lifetime (maybe_lifetime_view lifetime.now)) }
{
    match lifetime {
        None => Ok(()),
        Some(lifetime) => write_lifetime(out, lifetime),
    }
}

pub(crate) fn write_stream(out: &mut TokenStream, tokens: &TokenStream) -> Result<(), AllocError>
    ensures { OnOk result (stream out.new ≡ stream out.old ++ stream tokens.now) }
{
    let alloc = out.allocator();
    let mut copy = tokens.try_clone(alloc)?;
    out.append(&mut copy)
}

fn write_literal(out: &mut TokenStream, from: &Literal) -> Result<(), AllocError>
    ensures { OnOk result (stream out.new ≡ stream out.old ++ fixed (fixed_view from.now.lit) from.now.span ∷ []) }
{
    let alloc = out.allocator();
    let lit = from.lit.try_clone(alloc)?;
    out.push(TokenTree::Literal(Literal {
        lit,
        span: from.span,
    }))
}

pub(crate) fn write_lit_str(out: &mut TokenStream, from: &LitStr) -> Result<(), AllocError>
    ensures { OnOk result (stream out.new ≡ stream out.old ++ print_lit_str (lit_str_view from.now) ∷ []) }
{
    let alloc = out.allocator();
    let value = String::from_str(alloc, &from.value)?;
    let suffix = String::from_str(alloc, &from.suffix)?;
    out.push(TokenTree::Literal(Literal {
        lit: Lit::Str { value, suffix },
        span: from.span,
    }))
}

fn write_number(out: &mut TokenStream, number: u32) -> Result<(), AllocError>
    ensures { OnOk result (stream out.new ≡ stream out.old ++ fixed (digits (decimal number)) site ∷ []) }
{
    let alloc = out.allocator();
    let digits = format!(in alloc; "{number}")?;
    out.push(TokenTree::Literal(Literal {
        lit: Lit::Int { digits },
        span: Span::call_site(),
    }))
}

pub(crate) fn write_member(out: &mut TokenStream, from: &Member) -> Result<(), AllocError>
    ensures { OnOk result (stream out.new ≡ stream out.old ++ print_member (member_view from.now) ∷ []) }
{
    match from {
        Member::Named(name) => write_name(out, name),
        Member::Unnamed(number) => write_number(out, *number),
    }
}

#[cycle(write)]
#[tactic(auto, using(crate::proofs::Pieces::assoc))]
pub(crate) fn write_ty(from: &Ty, out: &mut TokenStream) -> Result<(), AllocError>
    ensures { OnOk result (stream out.new ≡ stream out.old ++ print_ty (ty from.now)) }
{
    match from {
        Ty::Array(elem, len) => {
            let mut inner = TokenStream::new(out.allocator());
            write_ty(elem, &mut inner)?;
            write_sign(&mut inner, ';')?;
            write_expr(len, &mut inner)?;
            out.push_group(Delimiter::Bracket, inner)
        }
        Ty::FnPtr { inputs, output } => {
            write_keyword(out, "fn")?;
            write_listed(inputs, out)?;
            write_output(output, out)
        }
        Ty::Group(elem) => write_enclosed(elem, Delimiter::None, out),
        Ty::ImplTrait(bounds) => write_bounded(bounds, "impl", out),
        Ty::Infer(span) => write_word(out, "_", *span),
        Ty::Macro { path, tokens } => write_macro(path, tokens, out),
        Ty::Never(span) => write_character(out, '!', Spacing::Alone, *span),
        Ty::Paren(elem) => write_enclosed(elem, Delimiter::Parenthesis, out),
        Ty::Path { qself, path } => {
            write_front(qself, out)?;
            write_behind(path, qself, out)
        }
        Ty::Ptr { mutable, elem } => write_pointer(elem, *mutable, out),
        Ty::Reference {
            lifetime,
            mutable,
            elem,
        } => write_reference(elem, lifetime, *mutable, out),
        Ty::Slice(elem) => write_enclosed(elem, Delimiter::Bracket, out),
        Ty::TraitObject(bounds) => write_bounded(bounds, "dyn", out),
        Ty::Tuple(elems) => write_tuple(elems, out),
        Ty::Verbatim(tokens) => write_stream(out, tokens),
    }
}

#[cycle(write)]
#[tactic(auto, using(crate::proofs::Pieces::assoc))]
fn write_enclosed(elem: &Ty, delimiter: Delimiter, out: &mut TokenStream) -> Result<(), AllocError>
    ensures { OnOk result (stream out.new ≡ stream out.old ++ group delimiter (toks_of (print_ty (ty elem.now))) site ∷ []) }
{
    let mut inner = TokenStream::new(out.allocator());
    write_ty(elem, &mut inner)?;
    out.push_group(delimiter, inner)
}

#[cycle(write)]
#[tactic(auto, using(crate::proofs::Pieces::assoc))]
fn write_bounded(bounds: &[Bound], before: &str, out: &mut TokenStream) -> Result<(), AllocError>
    ensures { OnOk result (stream out.new ≡ stream out.old ++ keyword before.now ∷ print_bounds false (bounds_of (map bound_view bounds.now))) }
{
    write_keyword(out, before)?;
    write_bounds(bounds, out)
}

#[cycle(write)]
#[tactic(auto, using(crate::proofs::Pieces::assoc))]
fn write_macro(path: &Path, tokens: &TokenStream, out: &mut TokenStream) -> Result<(), AllocError>
    ensures { OnOk result (stream out.new ≡ stream out.old ++ print_ty (ty_macro (path_view path.now) (stream tokens.now))) }
{
    write_path(path, out)?;
    write_sign(out, '!')?;
    write_stream(out, tokens)
}

#[cycle(write)]
#[tactic(auto, using(crate::proofs::Pieces::assoc))]
fn write_pointer(elem: &Ty, mutable: bool, out: &mut TokenStream) -> Result<(), AllocError>
    ensures { OnOk result (stream out.new ≡ stream out.old ++ print_ty (ty_pointer mutable (ty elem.now))) }
{
    write_sign(out, '*')?;
    write_mutability(out, mutable)?;
    write_ty(elem, out)
}

#[cycle(write)]
#[tactic(auto, using(crate::proofs::Pieces::assoc))]
fn write_reference(
    elem: &Ty,
    lifetime: &Option<Lifetime>,
    mutable: bool,
    out: &mut TokenStream,
) -> Result<(), AllocError>
    ensures { OnOk result (stream out.new ≡ stream out.old ++ print_ty (ty_reference (maybe_lifetime_view lifetime.now) mutable (ty elem.now))) }
{
    write_sign(out, '&')?;
    write_maybe_lifetime(out, lifetime)?;
    write_maybe_mut(out, mutable)?;
    write_ty(elem, out)
}

#[cycle(write)]
#[tactic(auto, using(crate::proofs::Pieces::assoc, crate::proofs::Pieces::any_ty_length))]
fn write_tuple(elems: &[Ty], out: &mut TokenStream) -> Result<(), AllocError>
    ensures { OnOk result (stream out.new ≡ stream out.old ++ print_ty (ty_tuple (tys_of (map ty elems.now)))) }
{
    let mut inner = TokenStream::new(out.allocator());
    write_tys(elems, &mut inner)?;
    write_separator(&mut inner, !elems.is_empty(), ',')?;
    out.push_group(Delimiter::Parenthesis, inner)
}

#[cycle(write)]
#[tactic(auto, using(crate::proofs::Pieces::assoc))]
fn write_output(from: &Option<Box<Ty>>, out: &mut TokenStream) -> Result<(), AllocError>
    ensures { OnOk result (stream out.new ≡ stream out.old ++ print_output (maybe_ty_view from.now)) }
{
    match from {
        None => Ok(()),
        Some(inner) => {
            write_arrow(out)?;
            write_ty(inner, out)
        }
    }
}

#[cycle(write)]
#[tactic(auto, using(crate::proofs::Pieces::assoc))]
fn write_listed(inputs: &[Ty], out: &mut TokenStream) -> Result<(), AllocError>
    ensures { OnOk result (stream out.new ≡ stream out.old ++ within_parens (print_tys false (tys_of (map ty inputs.now))) ∷ []) }
{
    let mut inner = TokenStream::new(out.allocator());
    write_tys(inputs, &mut inner)?;
    out.push_group(Delimiter::Parenthesis, inner)
}

#[cycle(write)]
#[tactic(auto, using(crate::proofs::Pieces::assoc))]
fn write_tys(from: &[Ty], out: &mut TokenStream) -> Result<(), AllocError>
    ensures { OnOk result (stream out.new ≡ stream out.old ++ print_tys false (tys_of (map ty from.now))) }
{
    let mut between = false;
    for item in from {
        write_separator(out, between, ',')?;
        write_ty(item, out)?;
        between = true;
    }
    Ok(())
}

#[cycle(write)]
#[tactic(auto, using(crate::proofs::Pieces::assoc))]
pub(crate) fn write_bounds(from: &[Bound], out: &mut TokenStream) -> Result<(), AllocError>
    ensures { OnOk result (stream out.new ≡ stream out.old ++ print_bounds false (bounds_of (map bound_view from.now))) }
{
    let mut between = false;
    for item in from {
        write_separator(out, between, '+')?;
        write_bound(item, out)?;
        between = true;
    }
    Ok(())
}

#[cycle(write)]
#[tactic(auto, using(crate::proofs::Pieces::assoc))]
pub(crate) fn write_bound(from: &Bound, out: &mut TokenStream) -> Result<(), AllocError>
    ensures { OnOk result (stream out.new ≡ stream out.old ++ print_bound (bound_view from.now)) }
{
    match from {
        Bound::Trait(path) => write_path(path, out),
        Bound::Lifetime(lifetime) => write_lifetime(out, lifetime),
    }
}

// How many segments lie before the `>`.
fn position_of(from: &Option<Box<QSelf>>) -> u32
    ensures { result ≡ position (maybe_qself_view from.now) }
{
    match from {
        None => 0,
        Some(qself) => qself.position,
    }
}

#[cycle(write)]
#[tactic(auto, using(crate::proofs::Pieces::assoc))]
fn write_front(from: &Option<Box<QSelf>>, out: &mut TokenStream) -> Result<(), AllocError>
    ensures { OnOk result (stream out.new ≡ stream out.old ++ print_front (maybe_qself_view from.now)) }
{
    match from {
        None => Ok(()),
        Some(qself) => write_qself(qself, out),
    }
}

#[cycle(write)]
#[tactic(auto, using(crate::proofs::Pieces::assoc))]
pub(crate) fn write_qself(from: &QSelf, out: &mut TokenStream) -> Result<(), AllocError>
    ensures { OnOk result (stream out.new ≡ stream out.old ++ print_qself (qself_view from.now)) }
{
    write_sign(out, '<')?;
    write_ty(&from.ty, out)?;
    write_front_end(out, from.position)
}

fn write_front_end(out: &mut TokenStream, position: u32) -> Result<(), AllocError>
    ensures { OnOk result (stream out.new ≡ stream out.old ++ cond (nat_eq position 0) (sign 62) (keyword (codes "as")) ∷ []) }
{
    if position == 0 {
        write_sign(out, '>')
    } else {
        write_keyword(out, "as")
    }
}

// The path behind its front, with the `>` after its segment of that number.
#[cycle(write)]
#[tactic(auto, using(crate::proofs::Pieces::assoc))]
fn write_behind(
    from: &Path,
    qself: &Option<Box<QSelf>>,
    out: &mut TokenStream,
) -> Result<(), AllocError>
    ensures { OnOk result (stream out.new ≡ stream out.old ++ print_behind (position (maybe_qself_view qself.now)) (path_view from.now)) }
{
    let before = position_of(qself);
    write_segments(&from.segments, before, from.leading, out)
}

#[cycle(write)]
#[tactic(auto, using(crate::proofs::Pieces::assoc))]
pub(crate) fn write_path(from: &Path, out: &mut TokenStream) -> Result<(), AllocError>
    ensures { OnOk result (stream out.new ≡ stream out.old ++ print_path (path_view from.now)) }
{
    write_segments(&from.segments, 0, from.leading, out)
}

#[cycle(write)]
#[tactic(auto, using(crate::proofs::Pieces::assoc))]
fn write_segments(
    from: &[PathSegment],
    before: u32,
    leading: bool,
    out: &mut TokenStream,
) -> Result<(), AllocError>
    ensures { OnOk result (stream out.new ≡ stream out.old ++ print_segments before leading (segments_of (map segment_view from.now))) }
{
    let mut left = before;
    let mut between = leading;
    for item in from {
        write_maybe_colons(out, between)?;
        write_segment(item, out)?;
        write_end_of_front(out, left)?;
        left = left.saturating_sub(1);
        between = true;
    }
    Ok(())
}

#[cycle(write)]
#[tactic(auto, using(crate::proofs::Pieces::assoc))]
pub(crate) fn write_segment(from: &PathSegment, out: &mut TokenStream) -> Result<(), AllocError>
    ensures { OnOk result (stream out.new ≡ stream out.old ++ print_segment (segment_view from.now)) }
{
    write_name(out, &from.ident)?;
    write_arguments(&from.arguments, out)
}

#[cycle(write)]
#[tactic(auto, using(crate::proofs::Pieces::assoc))]
pub(crate) fn write_arguments(from: &PathArguments, out: &mut TokenStream) -> Result<(), AllocError>
    ensures { OnOk result (stream out.new ≡ stream out.old ++ print_arguments (arguments_view from.now)) }
{
    match from {
        PathArguments::None => Ok(()),
        PathArguments::Angle { turbofish, args } => write_angle(args, *turbofish, out),
        PathArguments::Paren { inputs, output } => {
            write_listed(inputs, out)?;
            write_output(output, out)
        }
    }
}

#[cycle(write)]
#[tactic(auto, using(crate::proofs::Pieces::assoc))]
fn write_angle(
    args: &[GenericArgument],
    turbofish: bool,
    out: &mut TokenStream,
) -> Result<(), AllocError>
    ensures { OnOk result (stream out.new ≡ stream out.old ++ print_arguments (angle turbofish (generics_of (map generic_view args.now)))) }
{
    write_maybe_colons(out, turbofish)?;
    write_sign(out, '<')?;
    write_generics(args, out)?;
    write_sign(out, '>')
}

#[cycle(write)]
#[tactic(auto, using(crate::proofs::Pieces::assoc))]
fn write_generics(from: &[GenericArgument], out: &mut TokenStream) -> Result<(), AllocError>
    ensures { OnOk result (stream out.new ≡ stream out.old ++ print_generics false (generics_of (map generic_view from.now))) }
{
    let mut between = false;
    for item in from {
        write_separator(out, between, ',')?;
        write_generic(item, out)?;
        between = true;
    }
    Ok(())
}

fn write_named(out: &mut TokenStream, name: &Ident, ch: char) -> Result<(), AllocError>
    ensures { OnOk result (stream out.new ≡ stream out.old ++ print_name (name_view name.now) ∷ sign ch ∷ []) }
{
    write_name(out, name)?;
    write_sign(out, ch)
}

#[cycle(write)]
#[tactic(auto, using(crate::proofs::Pieces::assoc))]
pub(crate) fn write_generic(from: &GenericArgument, out: &mut TokenStream) -> Result<(), AllocError>
    ensures { OnOk result (stream out.new ≡ stream out.old ++ print_generic (generic_view from.now)) }
{
    match from {
        GenericArgument::Lifetime(lifetime) => write_lifetime(out, lifetime),
        GenericArgument::Ty(inner) => write_ty(inner, out),
        GenericArgument::Const(value) => write_expr(value, out),
        GenericArgument::AssocType { ident, ty } => {
            write_named(out, ident, '=')?;
            write_ty(ty, out)
        }
        GenericArgument::AssocConst { ident, value } => {
            write_named(out, ident, '=')?;
            write_expr(value, out)
        }
        GenericArgument::Constraint { ident, bounds } => {
            write_named(out, ident, ':')?;
            write_bounds(bounds, out)
        }
    }
}

#[cycle(write)]
#[tactic(auto, using(crate::proofs::Pieces::assoc))]
pub(crate) fn write_expr_path(from: &ExprPath, out: &mut TokenStream) -> Result<(), AllocError>
    ensures { OnOk result (stream out.new ≡ stream out.old ++ print_expr_path (expr_path_view from.now)) }
{
    write_front(&from.qself, out)?;
    write_behind(&from.path, &from.qself, out)
}

#[cycle(write)]
#[tactic(auto, using(crate::proofs::Pieces::assoc))]
pub(crate) fn write_expr(from: &Expr, out: &mut TokenStream) -> Result<(), AllocError>
    ensures { OnOk result (stream out.new ≡ stream out.old ++ print_expr (expr from.now)) }
{
    match from {
        Expr::Binary(left, op, right) => {
            write_expr(left, out)?;
            write_stream(out, op)?;
            write_expr(right, out)
        }
        Expr::Call(callee, args) => {
            write_expr(callee, out)?;
            write_listed_exprs(args, out)
        }
        Expr::Cast(value, to) => {
            write_expr(value, out)?;
            write_keyword(out, "as")?;
            write_ty(to, out)
        }
        Expr::Field(value, member) => write_access(value, member, out),
        Expr::Index(value, at) => {
            write_expr(value, out)?;
            write_enclosed_expr(at, Delimiter::Bracket, out)
        }
        Expr::Lit(literal) => write_literal(out, literal),
        Expr::Paren(inner) => write_enclosed_expr(inner, Delimiter::Parenthesis, out),
        Expr::Path(path) => write_expr_path(path, out),
        Expr::Unary(op, inner) => write_unary(inner, op, out),
        Expr::Verbatim(tokens) => write_stream(out, tokens),
    }
}

#[cycle(write)]
#[tactic(auto, using(crate::proofs::Pieces::assoc))]
fn write_access(value: &Expr, member: &Member, out: &mut TokenStream) -> Result<(), AllocError>
    ensures { OnOk result (stream out.new ≡ stream out.old ++ print_expr (ex_field (expr value.now) (member_view member.now))) }
{
    write_expr(value, out)?;
    write_sign(out, '.')?;
    write_member(out, member)
}

#[cycle(write)]
#[tactic(auto, using(crate::proofs::Pieces::assoc))]
fn write_enclosed_expr(
    inner: &Expr,
    delimiter: Delimiter,
    out: &mut TokenStream,
) -> Result<(), AllocError>
    ensures { OnOk result (stream out.new ≡ stream out.old ++ group delimiter (toks_of (print_expr (expr inner.now))) site ∷ []) }
{
    let mut printed = TokenStream::new(out.allocator());
    write_expr(inner, &mut printed)?;
    out.push_group(delimiter, printed)
}

#[cycle(write)]
#[tactic(auto, using(crate::proofs::Pieces::assoc))]
fn write_unary(inner: &Expr, op: &TokenStream, out: &mut TokenStream) -> Result<(), AllocError>
    ensures { OnOk result (stream out.new ≡ stream out.old ++ (stream op.now ++ print_expr (expr inner.now))) }
{
    write_stream(out, op)?;
    write_expr(inner, out)
}

#[cycle(write)]
#[tactic(auto, using(crate::proofs::Pieces::assoc))]
fn write_listed_exprs(args: &[Expr], out: &mut TokenStream) -> Result<(), AllocError>
    ensures { OnOk result (stream out.new ≡ stream out.old ++ within_parens (print_exprs false (exprs_of (map expr args.now))) ∷ []) }
{
    let mut inner = TokenStream::new(out.allocator());
    write_exprs(args, &mut inner)?;
    out.push_group(Delimiter::Parenthesis, inner)
}

#[cycle(write)]
#[tactic(auto, using(crate::proofs::Pieces::assoc))]
fn write_exprs(from: &[Expr], out: &mut TokenStream) -> Result<(), AllocError>
    ensures { OnOk result (stream out.new ≡ stream out.old ++ print_exprs false (exprs_of (map expr from.now))) }
{
    let mut between = false;
    for item in from {
        write_separator(out, between, ',')?;
        write_expr(item, out)?;
        between = true;
    }
    Ok(())
}
