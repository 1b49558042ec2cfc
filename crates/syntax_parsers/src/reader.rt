//! Types, paths, bounds and arguments, read from the front of tokens. A reader is given the place of the group that the
//! tokens stand in, and gives the tree with the tokens behind it. `room` bounds how deep readings stand in one another and
//! how long a list is; a caller gives enough for all tokens.
ghost use Rattle.std.specs.Prelude.{◌≡◌, IfOk, ◌++◌, ◌∷◌, [], map, option_map, length, Ok, Some, Result};
ghost use Rattle.token_trees.specs.View.{trees, name_view, fixed_view};
ghost use Rattle.syntax_trees.specs.Syntax.{tys_of};
ghost use Rattle.syntax_trees.specs.View.{ty, path_view, segment_view, arguments_view, generic_view, expr, expr_path_view, bound_view, maybe_ty_view, maybe_lifetime_view};
ghost use Rattle.syntax_parsers.specs.Answer.{Answers};
ghost use Rattle.syntax_parsers.specs.Read.{levels};
ghost use Rattle.syntax_parsers.specs.Grammar.{whole, output_body, path_body, trait_body, behind_body, qualified_body, expr_path_body, length_body, other_length, bracketed_body, parenthesised, maybe_lifetime_front, reference_body, pointer_body, signature_body, function_body, some_bounds, path_ty, bound_body, arguments_body, segment_body, constant_front, qualified_ty, required};
ghost use Rattle.syntax_parsers.specs.Parts.{signed_ty, grouped_ty, worded_ty, plain_ty, associated_body, named_generic, argument_body, through_trait, behind_element, literal_alone, some_length};
ghost use Rattle.syntax_parsers.specs.Fronts.{sign_front, colons_front};

use crate::fault::ParseFault;
use crate::front::{
    after_angle, after_arrow, after_colons, after_keyword, after_lifetime, after_literal,
    after_mut, after_name_colon, after_name_eq, after_negative, after_segment_name, after_sign,
    in_braces, in_brackets, in_parens, is_at_bound, is_at_path, missing_at, place_of,
};
use crate::gives::{after_macro, after_segment};
use crate::made::{
    angle_arguments, array_ty, associated_constant, associated_type, bare_arguments,
    constant_argument, constraint, function_ty, impl_ty, infer_ty, lifetime_argument,
    lifetime_bound, literal_length, macro_ty, make_path, make_segment, never_ty, object_ty,
    paren_arguments, paren_ty, path_length, plain_expr_path, plain_path_ty, pointer_ty,
    qualified_expr_path, qualified_path_ty, reference_ty, slice_ty, trait_bound, tuple_ty,
    type_argument, verbatim,
};
use crate::tokens::{copy_lifetime, copy_literal, copy_one, copy_trees, copy_two};
use std::alloc::{AllocError, Global};
use syntax_trees::{
    Bound, Expr, ExprPath, GenericArgument, Lifetime, Path, PathArguments, PathSegment, SyntaxKind,
    Ty,
};
use token_trees::{Ident, Literal, Span, TokenTree};

// Behind that character.
pub(crate) fn expect_sign(
    ch: char,
    kind: SyntaxKind,
    at: Span,
    tokens: &[TokenTree],
) -> Result<&[TokenTree], ParseFault>
    ensures { Answers (λ x. trees x.now) result (required (sign_front ch (trees tokens.now)) kind at (trees tokens.now)) }
{
    match after_sign(ch, tokens) {
        None => Err(missing_at(kind, at, tokens)),
        Some(rest) => Ok(rest),
    }
}

// Behind `::`.
fn expect_colons(
    kind: SyntaxKind,
    at: Span,
    tokens: &[TokenTree],
) -> Result<&[TokenTree], ParseFault>
    ensures { Answers (λ x. trees x.now) result (required (colons_front (trees tokens.now)) kind at (trees tokens.now)) }
{
    match after_colons(tokens) {
        None => Err(missing_at(kind, at, tokens)),
        Some(rest) => Ok(rest),
    }
}

// A lifetime, where one stands here.
fn read_maybe_lifetime(
    alloc: Global,
    tokens: &[TokenTree],
) -> Result<(Option<Lifetime>, &[TokenTree]), AllocError>
    ensures lifetime { IfOk result (λ x. maybe_lifetime_view x.0 ≡ (maybe_lifetime_front (trees tokens.now)).0) }
    ensures rest { IfOk result (λ x. trees x.1.now ≡ (maybe_lifetime_front (trees tokens.now)).1) }
{
    match after_lifetime(tokens) {
        None => Ok((None, tokens)),
        Some((name, span, rest)) => {
            let lifetime = copy_lifetime(alloc, name, span)?;
            Ok((Some(lifetime), rest))
        }
    }
}

// The literal that the tokens are.
fn lone_literal(tokens: &[TokenTree]) -> Option<&Literal>
    ensures { option_map (λ x. (fixed_view x.now.lit, x.now.span)) result ≡ literal_alone (trees tokens.now) }
{
    let (literal, rest) = after_literal(tokens)?;
    match rest {
        [] => Some(literal),
        [_, ..] => None,
    }
}

// What is no type: a literal, a `-` and a literal, or a group in braces.
fn read_constant(
    alloc: Global,
    tokens: &[TokenTree],
) -> Result<Option<(Expr, &[TokenTree])>, AllocError>
    ensures { IfOk result (λ found. option_map (λ x. (expr x.0, trees x.1.now)) found ≡ constant_front (trees tokens.now)) }
{
    let Some((first, rest)) = tokens.split_first() else {
        return Ok(None);
    };
    if let Some((literal, end)) = after_literal(tokens) {
        let value = literal_length(copy_literal(alloc, literal)?);
        return Ok(Some((value, end)));
    }
    if in_braces(tokens).is_some() {
        let value = verbatim(copy_one(alloc, first)?);
        return Ok(Some((value, rest)));
    }
    let Some((literal, end)) = after_negative(tokens) else {
        return Ok(None);
    };
    let value = verbatim(copy_two(alloc, first, literal)?);
    Ok(Some((value, end)))
}

// What parentheses hold: one type with no comma behind it is that type.
fn parenthesised_ty(alloc: Global, mut elems: Vec<Ty>, comma: bool) -> Result<Ty, AllocError>
    ensures { IfOk result (λ t. ty t ≡ parenthesised (map ty elems.items, comma)) }
{
    if elems.len() != 1 || comma {
        return Ok(tuple_ty(elems));
    }
    match elems.pop() {
        None => Ok(tuple_ty(elems)),
        Some(inner) => paren_ty(alloc, inner),
    }
}

// The tree of a qualified path as a type.
fn expr_path_ty(path: ExprPath) -> Ty
    ensures { ty result ≡ qualified_ty (expr_path_view path) }
{
    let (qself, path) = path.into_parts();
    qualified_path_ty(qself, path)
}

#[cycle(read)]
#[tactic(auto, using(crate::proofs::Levels::ty_none, crate::proofs::Levels::ty_level))]
pub(crate) fn read_ty(
    room: usize,
    alloc: Global,
    at: Span,
    tokens: &[TokenTree],
) -> Result<(Ty, &[TokenTree]), ParseFault>
    ensures { Answers (λ x. (ty x.0, trees x.1.now)) result ((levels room).ty at (trees tokens.now)) }
{
    if room == 0 {
        return Err(missing_at(SyntaxKind::UnexpectedToken, at, tokens));
    }
    read_signed_ty(room - 1, alloc, at, tokens)
}

#[cycle(read)]
#[tactic(auto, unfolding(crate::specs::Parts::signed_ty))]
fn read_signed_ty(
    room: usize,
    alloc: Global,
    at: Span,
    tokens: &[TokenTree],
) -> Result<(Ty, &[TokenTree]), ParseFault>
    ensures { Answers (λ x. (ty x.0, trees x.1.now)) result (signed_ty (levels room) at (trees tokens.now)) }
{
    if let Some(rest) = after_sign('&', tokens) {
        return read_reference(room, alloc, at, rest);
    }
    if let Some(rest) = after_sign('*', tokens) {
        return read_pointer(room, alloc, at, rest);
    }
    if let Some(rest) = after_sign('!', tokens) {
        return Ok((never_ty(place_of(at, tokens)), rest));
    }
    if let Some(rest) = after_sign('<', tokens) {
        let (path, end) = read_qualified(room, alloc, at, rest)?;
        return Ok((expr_path_ty(path), end));
    }
    read_grouped_ty(room, alloc, at, tokens)
}

#[cycle(read)]
#[tactic(auto, unfolding(crate::specs::Parts::grouped_ty))]
fn read_grouped_ty(
    room: usize,
    alloc: Global,
    at: Span,
    tokens: &[TokenTree],
) -> Result<(Ty, &[TokenTree]), ParseFault>
    ensures { Answers (λ x. (ty x.0, trees x.1.now)) result (grouped_ty (levels room) at (trees tokens.now)) }
{
    if let Some((inner, span, rest)) = in_brackets(tokens) {
        let found = read_bracketed(room, alloc, span, inner)?;
        return Ok((found, rest));
    }
    if let Some((inner, span, rest)) = in_parens(tokens) {
        let (elems, comma) = read_tys(room, alloc, span, inner)?;
        return Ok((parenthesised_ty(alloc, elems, comma)?, rest));
    }
    read_worded_ty(room, alloc, at, tokens)
}

#[cycle(read)]
#[tactic(auto, unfolding(crate::specs::Parts::worded_ty))]
fn read_worded_ty(
    room: usize,
    alloc: Global,
    at: Span,
    tokens: &[TokenTree],
) -> Result<(Ty, &[TokenTree]), ParseFault>
    ensures { Answers (λ x. (ty x.0, trees x.1.now)) result (worded_ty (levels room) at (trees tokens.now)) }
{
    if let Some(rest) = after_keyword("_", tokens) {
        return Ok((infer_ty(place_of(at, tokens)), rest));
    }
    if let Some(rest) = after_keyword("fn", tokens) {
        return read_function(room, alloc, at, rest);
    }
    if let Some(rest) = after_keyword("impl", tokens) {
        let (bounds, end) = read_some_bounds(room, alloc, at, rest)?;
        return Ok((impl_ty(bounds), end));
    }
    if let Some(rest) = after_keyword("dyn", tokens) {
        let (bounds, end) = read_some_bounds(room, alloc, at, rest)?;
        return Ok((object_ty(bounds), end));
    }
    read_plain_ty(room, alloc, at, tokens)
}

#[cycle(read)]
#[tactic(auto, unfolding(crate::specs::Parts::plain_ty))]
fn read_plain_ty(
    room: usize,
    alloc: Global,
    at: Span,
    tokens: &[TokenTree],
) -> Result<(Ty, &[TokenTree]), ParseFault>
    ensures { Answers (λ x. (ty x.0, trees x.1.now)) result (plain_ty (levels room) at (trees tokens.now)) }
{
    if is_at_path(tokens) {
        return read_path_ty(room, alloc, at, tokens);
    }
    Err(missing_at(SyntaxKind::ExpectedType, at, tokens))
}

// A path, or with a `!` and a group behind it a macro.
#[cycle(read)]
#[tactic(auto, unfolding(crate::specs::Grammar::path_ty))]
fn read_path_ty(
    room: usize,
    alloc: Global,
    at: Span,
    tokens: &[TokenTree],
) -> Result<(Ty, &[TokenTree]), ParseFault>
    ensures { Answers (λ x. (ty x.0, trees x.1.now)) result (path_ty (levels room) at (trees tokens.now)) }
{
    let (path, rest) = read_path(room, alloc, at, tokens)?;
    if let Some((group, end)) = after_macro(&path, rest) {
        let tokens = copy_one(alloc, group)?;
        return Ok((macro_ty(path, tokens), end));
    }
    Ok((plain_path_ty(path), rest))
}

// Behind a `&`.
#[cycle(read)]
#[tactic(auto, unfolding(crate::specs::Grammar::reference_body))]
fn read_reference(
    room: usize,
    alloc: Global,
    at: Span,
    tokens: &[TokenTree],
) -> Result<(Ty, &[TokenTree]), ParseFault>
    ensures { Answers (λ x. (ty x.0, trees x.1.now)) result (reference_body (levels room) at (trees tokens.now)) }
{
    let (lifetime, rest) = read_maybe_lifetime(alloc, tokens)?;
    let (mutable, inner) = after_mut(rest);
    let (elem, end) = read_ty(room, alloc, at, inner)?;
    Ok((reference_ty(alloc, lifetime, mutable, elem)?, end))
}

// Behind a `*`.
#[cycle(read)]
#[tactic(auto, unfolding(crate::specs::Grammar::pointer_body))]
fn read_pointer(
    room: usize,
    alloc: Global,
    at: Span,
    tokens: &[TokenTree],
) -> Result<(Ty, &[TokenTree]), ParseFault>
    ensures { Answers (λ x. (ty x.0, trees x.1.now)) result (pointer_body (levels room) at (trees tokens.now)) }
{
    if let Some(rest) = after_keyword("mut", tokens) {
        let (elem, end) = read_ty(room, alloc, at, rest)?;
        return Ok((pointer_ty(alloc, true, elem)?, end));
    }
    let Some(rest) = after_keyword("const", tokens) else {
        return Err(missing_at(SyntaxKind::UnexpectedToken, at, tokens));
    };
    let (elem, end) = read_ty(room, alloc, at, rest)?;
    Ok((pointer_ty(alloc, false, elem)?, end))
}

// What stands within brackets.
#[cycle(read)]
#[tactic(auto, unfolding(crate::specs::Grammar::bracketed_body, crate::specs::Parts::behind_element))]
fn read_bracketed(
    room: usize,
    alloc: Global,
    at: Span,
    tokens: &[TokenTree],
) -> Result<Ty, ParseFault>
    ensures { Answers ty result (bracketed_body (levels room) at (trees tokens.now)) }
{
    let (elem, rest) = read_ty(room, alloc, at, tokens)?;
    if let Some(behind) = after_sign(';', rest) {
        let len = read_length(room, alloc, at, behind)?;
        return Ok(array_ty(alloc, elem, len)?);
    }
    match rest {
        [] => Ok(slice_ty(alloc, elem)?),
        [_, ..] => Err(missing_at(SyntaxKind::UnexpectedToken, at, rest)),
    }
}

// The length of an array: a literal, else a path, else its tokens.
#[cycle(read)]
fn read_length(
    room: usize,
    alloc: Global,
    at: Span,
    tokens: &[TokenTree],
) -> Result<Expr, ParseFault>
    ensures { Answers expr result (length_body (levels room) at (trees tokens.now)) }
{
    match tokens {
        [] => Err(missing_at(SyntaxKind::ExpectedValue, at, tokens)),
        [_, ..] => read_some_length(room, alloc, at, tokens),
    }
}

#[cycle(read)]
#[tactic(auto, unfolding(crate::specs::Parts::some_length))]
fn read_some_length(
    room: usize,
    alloc: Global,
    at: Span,
    tokens: &[TokenTree],
) -> Result<Expr, ParseFault>
    ensures { Answers expr result (some_length (levels room) at (trees tokens.now)) }
{
    if let Some(literal) = lone_literal(tokens) {
        return Ok(literal_length(copy_literal(alloc, literal)?));
    }
    read_other_length(room, alloc, at, tokens)
}

#[cycle(read)]
fn read_other_length(
    room: usize,
    alloc: Global,
    at: Span,
    tokens: &[TokenTree],
) -> Result<Expr, ParseFault>
    ensures { Answers expr result (let ts = trees tokens.now in Ok (other_length ts (whole at ((levels room).expr_path at ts)))) }
{
    match read_whole_expr_path(room, alloc, at, tokens) {
        Ok(path) => Ok(path_length(path)),
        Err(ParseFault::Memory) => Err(ParseFault::Memory),
        Err(ParseFault::Syntax(_)) => Ok(verbatim(copy_trees(alloc, tokens)?)),
    }
}

#[cycle(read)]
fn read_whole_expr_path(
    room: usize,
    alloc: Global,
    at: Span,
    tokens: &[TokenTree],
) -> Result<ExprPath, ParseFault>
    ensures { Answers expr_path_view result (whole at ((levels room).expr_path at (trees tokens.now))) }
{
    let (path, rest) = read_expr_path(room, alloc, at, tokens)?;
    match rest {
        [] => Ok(path),
        [_, ..] => Err(missing_at(SyntaxKind::UnexpectedToken, at, rest)),
    }
}

#[cycle(read)]
#[tactic(auto, using(crate::proofs::Levels::expr_path_none, crate::proofs::Levels::expr_path_level))]
pub(crate) fn read_expr_path(
    room: usize,
    alloc: Global,
    at: Span,
    tokens: &[TokenTree],
) -> Result<(ExprPath, &[TokenTree]), ParseFault>
    ensures { Answers (λ x. (expr_path_view x.0, trees x.1.now)) result ((levels room).expr_path at (trees tokens.now)) }
{
    if room == 0 {
        return Err(missing_at(SyntaxKind::UnexpectedToken, at, tokens));
    }
    read_either_path(room - 1, alloc, at, tokens)
}

// A path with or without `<T>::` or `<T as P>::` before it.
#[cycle(read)]
#[tactic(auto, unfolding(crate::specs::Grammar::expr_path_body))]
fn read_either_path(
    room: usize,
    alloc: Global,
    at: Span,
    tokens: &[TokenTree],
) -> Result<(ExprPath, &[TokenTree]), ParseFault>
    ensures { Answers (λ x. (expr_path_view x.0, trees x.1.now)) result (expr_path_body (levels room) at (trees tokens.now)) }
{
    if let Some(rest) = after_sign('<', tokens) {
        return read_qualified(room, alloc, at, rest);
    }
    let (path, rest) = read_path(room, alloc, at, tokens)?;
    Ok((plain_expr_path(path), rest))
}

// Behind a `<`: `T as P>::rest`, or `T>::rest`.
#[cycle(read)]
#[tactic(auto, unfolding(crate::specs::Grammar::qualified_body, crate::specs::Parts::through_trait))]
fn read_qualified(
    room: usize,
    alloc: Global,
    at: Span,
    tokens: &[TokenTree],
) -> Result<(ExprPath, &[TokenTree]), ParseFault>
    ensures { Answers (λ x. (expr_path_view x.0, trees x.1.now)) result (qualified_body (levels room) at (trees tokens.now)) }
{
    let (inner, rest) = read_ty(room, alloc, at, tokens)?;
    if let Some(front) = after_keyword("as", rest) {
        return read_through_trait(room, alloc, at, inner, front);
    }
    let (segments, end) = read_behind(room, alloc, at, rest)?;
    let path = make_path(true, segments);
    Ok((qualified_expr_path(alloc, inner, 0, path)?, end))
}

// Behind `T as`, within `<>`.
#[cycle(read)]
#[tactic(auto, unfolding(crate::specs::Parts::through_trait))]
fn read_through_trait(
    room: usize,
    alloc: Global,
    at: Span,
    inner: Ty,
    tokens: &[TokenTree],
) -> Result<(ExprPath, &[TokenTree]), ParseFault>
    ensures { Answers (λ x. (expr_path_view x.0, trees x.1.now)) result (through_trait (levels room) (ty inner) at (trees tokens.now)) }
{
    let (leading, mut segments, rest) = read_trait(room, alloc, at, tokens)?;
    let Ok(position) = u32::try_from(segments.len()) else {
        return Err(ParseFault::Memory);
    };
    let (mut more, end) = read_behind(room, alloc, at, rest)?;
    segments.append(&mut more)?;
    let path = make_path(leading, segments);
    Ok((qualified_expr_path(alloc, inner, position, path)?, end))
}

// A path that goes on behind a `>`: whether `::` stands before it, and its segments up to there.
#[cycle(read)]
#[tactic(auto, unfolding(crate::specs::Grammar::trait_body))]
fn read_trait(
    room: usize,
    alloc: Global,
    at: Span,
    tokens: &[TokenTree],
) -> Result<(bool, Vec<PathSegment>, &[TokenTree]), ParseFault>
    ensures { Answers (λ x. (x.0, map segment_view x.1.items, trees x.2.now)) result (trait_body (levels room) at (trees tokens.now)) }
{
    if let Some(rest) = after_colons(tokens) {
        let (segments, end) = read_segments(room, alloc, at, rest)?;
        return Ok((true, segments, end));
    }
    let (segments, end) = read_segments(room, alloc, at, tokens)?;
    Ok((false, segments, end))
}

// `>::` and the segments behind it.
#[cycle(read)]
#[tactic(auto, unfolding(crate::specs::Grammar::behind_body))]
fn read_behind(
    room: usize,
    alloc: Global,
    at: Span,
    tokens: &[TokenTree],
) -> Result<(Vec<PathSegment>, &[TokenTree]), ParseFault>
    ensures { Answers (λ x. (map segment_view x.0.items, trees x.1.now)) result (behind_body (levels room) at (trees tokens.now)) }
{
    let rest = expect_sign('>', SyntaxKind::ExpectedGt, at, tokens)?;
    let inner = expect_colons(SyntaxKind::ExpectedPath, at, rest)?;
    let (segments, end) = read_segments(room, alloc, at, inner)?;
    Ok((segments, end))
}

#[cycle(read)]
#[tactic(auto, unfolding(crate::specs::Grammar::path_body))]
pub(crate) fn read_path(
    room: usize,
    alloc: Global,
    at: Span,
    tokens: &[TokenTree],
) -> Result<(Path, &[TokenTree]), ParseFault>
    ensures { Answers (λ x. (path_view x.0, trees x.1.now)) result (path_body (levels room) at (trees tokens.now)) }
{
    if let Some(rest) = after_colons(tokens) {
        let (segments, end) = read_segments(room, alloc, at, rest)?;
        return Ok((make_path(true, segments), end));
    }
    let (segments, end) = read_segments(room, alloc, at, tokens)?;
    Ok((make_path(false, segments), end))
}

// The segments of a path, with `::` between any two.
#[cycle(read)]
#[tactic(auto, using(crate::proofs::Levels::segments_none, crate::proofs::Levels::segments_level))]
fn read_segments(
    room: usize,
    alloc: Global,
    at: Span,
    tokens: &[TokenTree],
) -> Result<(Vec<PathSegment>, &[TokenTree]), ParseFault>
    ensures { Answers (λ x. (map segment_view x.0.items, trees x.1.now)) result ((levels room).segments at (trees tokens.now)) }
{
    let mut found = Vec::new(alloc);
    let mut left = tokens;
    let mut depth = room;
    'segments: while depth > 0 {
        depth -= 1;
        let (one, rest) = read_segment(depth, alloc, at, left)?;
        let more = after_segment(&one, rest);
        found.push(one)?;
        let Some(behind) = more else {
            return Ok((found, rest));
        };
        left = behind;
    }
    Err(missing_at(SyntaxKind::UnexpectedToken, at, left))
}

#[cycle(read)]
#[tactic(auto, unfolding(crate::specs::Grammar::segment_body))]
fn read_segment(
    room: usize,
    alloc: Global,
    at: Span,
    tokens: &[TokenTree],
) -> Result<(PathSegment, &[TokenTree]), ParseFault>
    ensures { Answers (λ x. (segment_view x.0, trees x.1.now)) result (segment_body (levels room) at (trees tokens.now)) }
{
    let Some((name, rest)) = after_segment_name(tokens) else {
        return Err(missing_at(SyntaxKind::ExpectedIdent, at, tokens));
    };
    let ident = name.try_clone(alloc)?;
    let (arguments, end) = read_arguments(room, alloc, at, rest)?;
    Ok((make_segment(ident, arguments), end))
}

// The arguments of a segment, where it has some.
#[cycle(read)]
#[tactic(auto, unfolding(crate::specs::Grammar::arguments_body))]
fn read_arguments(
    room: usize,
    alloc: Global,
    at: Span,
    tokens: &[TokenTree],
) -> Result<(PathArguments, &[TokenTree]), ParseFault>
    ensures { Answers (λ x. (arguments_view x.0, trees x.1.now)) result (arguments_body (levels room) at (trees tokens.now)) }
{
    if let Some((turbofish, inner)) = after_angle(tokens) {
        let (args, end) = read_generics(room, alloc, at, inner)?;
        return Ok((angle_arguments(turbofish, args), end));
    }
    if let Some((inner, span, rest)) = in_parens(tokens) {
        let (inputs, output, end) = read_signature(room, alloc, at, inner, span, rest)?;
        return Ok((paren_arguments(inputs, output), end));
    }
    Ok((bare_arguments(), tokens))
}

// The types within a group in parentheses, and what is given back.
#[cycle(read)]
#[tactic(auto, unfolding(crate::specs::Grammar::signature_body))]
fn read_signature<'a>(
    room: usize,
    alloc: Global,
    at: Span,
    inner: &[TokenTree],
    span: Span,
    rest: &'a [TokenTree],
) -> Result<(Vec<Ty>, Option<Box<Ty>>, &'a [TokenTree]), ParseFault>
    ensures { Answers (λ x. (map ty x.0.items, maybe_ty_view x.1, trees x.2.now)) result (signature_body (levels room) (trees inner.now, span, trees rest.now) at) }
{
    let (inputs, _) = read_tys(room, alloc, span, inner)?;
    let (output, end) = read_output(room, alloc, at, rest)?;
    Ok((inputs, output, end))
}

// `-> T`, where it stands.
#[cycle(read)]
#[tactic(auto, unfolding(crate::specs::Grammar::output_body))]
fn read_output(
    room: usize,
    alloc: Global,
    at: Span,
    tokens: &[TokenTree],
) -> Result<(Option<Box<Ty>>, &[TokenTree]), ParseFault>
    ensures { Answers (λ x. (maybe_ty_view x.0, trees x.1.now)) result (output_body (levels room) at (trees tokens.now)) }
{
    let Some(rest) = after_arrow(tokens) else {
        return Ok((None, tokens));
    };
    let (found, end) = read_ty(room, alloc, at, rest)?;
    Ok((Some(Box::new(alloc, found)?), end))
}

// Behind `fn`.
#[cycle(read)]
#[tactic(auto, unfolding(crate::specs::Grammar::function_body))]
fn read_function(
    room: usize,
    alloc: Global,
    at: Span,
    tokens: &[TokenTree],
) -> Result<(Ty, &[TokenTree]), ParseFault>
    ensures { Answers (λ x. (ty x.0, trees x.1.now)) result (function_body (levels room) at (trees tokens.now)) }
{
    let Some((inner, span, rest)) = in_parens(tokens) else {
        return Err(missing_at(SyntaxKind::ExpectedParen, at, tokens));
    };
    let (inputs, output, end) = read_signature(room, alloc, at, inner, span, rest)?;
    Ok((function_ty(inputs, output), end))
}

// Types with a comma between any two, up to the end, and whether one stands behind the last.
#[cycle(read)]
#[tactic(auto, using(crate::proofs::Levels::tys_none, crate::proofs::Levels::tys_level))]
fn read_tys(
    room: usize,
    alloc: Global,
    at: Span,
    tokens: &[TokenTree],
) -> Result<(Vec<Ty>, bool), ParseFault>
    ensures { Answers (λ x. (map ty x.0.items, x.1)) result ((levels room).tys at (trees tokens.now)) }
{
    let mut found = Vec::new(alloc);
    let mut left = tokens;
    let mut depth = room;
    'tys: while depth > 0 {
        depth -= 1;
        if left.is_empty() {
            return Ok((found, false));
        }
        let (one, rest) = read_ty(depth, alloc, at, left)?;
        found.push(one)?;
        if rest.is_empty() {
            return Ok((found, false));
        }
        left = expect_sign(',', SyntaxKind::ExpectedComma, at, rest)?;
        if left.is_empty() {
            return Ok((found, true));
        }
    }
    Err(missing_at(SyntaxKind::UnexpectedToken, at, left))
}

// One or more bounds.
#[cycle(read)]
#[tactic(auto, unfolding(crate::specs::Grammar::some_bounds))]
fn read_some_bounds(
    room: usize,
    alloc: Global,
    at: Span,
    tokens: &[TokenTree],
) -> Result<(Vec<Bound>, &[TokenTree]), ParseFault>
    ensures { Answers (λ x. (map bound_view x.0.items, trees x.1.now)) result (some_bounds (levels room) at (trees tokens.now)) }
{
    if is_at_bound(tokens) {
        return read_bounds(room, alloc, at, tokens);
    }
    Err(missing_at(SyntaxKind::ExpectedBound, at, tokens))
}

// Bounds with a `+` between any two, and one more behind the last where you like. Where a bound may stand, no `+` does.
#[cycle(read)]
#[tactic(auto, using(crate::proofs::Levels::bounds_none, crate::proofs::Levels::bounds_level))]
pub(crate) fn read_bounds(
    room: usize,
    alloc: Global,
    at: Span,
    tokens: &[TokenTree],
) -> Result<(Vec<Bound>, &[TokenTree]), ParseFault>
    ensures { Answers (λ x. (map bound_view x.0.items, trees x.1.now)) result ((levels room).bounds at (trees tokens.now)) }
{
    let mut found = Vec::new(alloc);
    let mut left = tokens;
    let mut depth = room;
    'bounds: while depth > 0 {
        depth -= 1;
        if !is_at_bound(left) {
            if after_sign('+', left).is_some() {
                return Err(missing_at(SyntaxKind::ExpectedBound, at, left));
            }
            return Ok((found, left));
        }
        let (one, rest) = read_bound(depth, alloc, at, left)?;
        found.push(one)?;
        let Some(behind) = after_sign('+', rest) else {
            return Ok((found, rest));
        };
        left = behind;
    }
    Err(missing_at(SyntaxKind::UnexpectedToken, at, left))
}

#[cycle(read)]
#[tactic(auto, unfolding(crate::specs::Grammar::bound_body))]
fn read_bound(
    room: usize,
    alloc: Global,
    at: Span,
    tokens: &[TokenTree],
) -> Result<(Bound, &[TokenTree]), ParseFault>
    ensures { Answers (λ x. (bound_view x.0, trees x.1.now)) result (bound_body (levels room) at (trees tokens.now)) }
{
    if let Some((name, span, rest)) = after_lifetime(tokens) {
        let lifetime = copy_lifetime(alloc, name, span)?;
        return Ok((lifetime_bound(lifetime), rest));
    }
    let (path, rest) = read_path(room, alloc, at, tokens)?;
    Ok((trait_bound(path), rest))
}

// Arguments up to and with the `>`, with a comma between any two, and one more behind the last where you like.
#[cycle(read)]
#[tactic(auto, using(crate::proofs::Levels::generics_none, crate::proofs::Levels::generics_level))]
fn read_generics(
    room: usize,
    alloc: Global,
    at: Span,
    tokens: &[TokenTree],
) -> Result<(Vec<GenericArgument>, &[TokenTree]), ParseFault>
    ensures { Answers (λ x. (map generic_view x.0.items, trees x.1.now)) result ((levels room).generics at (trees tokens.now)) }
{
    let mut found = Vec::new(alloc);
    let mut left = tokens;
    let mut depth = room;
    'generics: while depth > 0 {
        depth -= 1;
        if let Some(end) = after_sign('>', left) {
            return Ok((found, end));
        }
        let (one, rest) = read_generic(depth, alloc, at, left)?;
        found.push(one)?;
        if let Some(end) = after_sign('>', rest) {
            return Ok((found, end));
        }
        left = expect_sign(',', SyntaxKind::ExpectedGt, at, rest)?;
    }
    Err(missing_at(SyntaxKind::UnexpectedToken, at, left))
}

#[cycle(read)]
#[tactic(auto, unfolding(crate::specs::Parts::argument_body))]
fn read_generic(
    room: usize,
    alloc: Global,
    at: Span,
    tokens: &[TokenTree],
) -> Result<(GenericArgument, &[TokenTree]), ParseFault>
    ensures { Answers (λ x. (generic_view x.0, trees x.1.now)) result (argument_body (levels room) at (trees tokens.now)) }
{
    if let Some((name, span, rest)) = after_lifetime(tokens) {
        let lifetime = copy_lifetime(alloc, name, span)?;
        return Ok((lifetime_argument(lifetime), rest));
    }
    if let Some((value, rest)) = read_constant(alloc, tokens)? {
        return Ok((constant_argument(value), rest));
    }
    read_named_generic(room, alloc, at, tokens)
}

// An argument that is an associated item or a type.
#[cycle(read)]
#[tactic(auto, unfolding(crate::specs::Parts::named_generic))]
fn read_named_generic(
    room: usize,
    alloc: Global,
    at: Span,
    tokens: &[TokenTree],
) -> Result<(GenericArgument, &[TokenTree]), ParseFault>
    ensures { Answers (λ x. (generic_view x.0, trees x.1.now)) result (named_generic (levels room) at (trees tokens.now)) }
{
    if let Some((name, rest)) = after_name_eq(tokens) {
        return read_associated(room, alloc, at, name, rest);
    }
    if let Some((name, rest)) = after_name_colon(tokens) {
        let (bounds, end) = read_bounds(room, alloc, at, rest)?;
        let ident = name.try_clone(alloc)?;
        return Ok((constraint(ident, bounds), end));
    }
    let (inner, rest) = read_ty(room, alloc, at, tokens)?;
    Ok((type_argument(inner), rest))
}

// The value of an associated item: what is no type, else a type.
#[cycle(read)]
#[tactic(auto, unfolding(crate::specs::Parts::associated_body))]
fn read_associated<'a>(
    room: usize,
    alloc: Global,
    at: Span,
    name: &Ident,
    tokens: &'a [TokenTree],
) -> Result<(GenericArgument, &'a [TokenTree]), ParseFault>
    ensures { Answers (λ x. (generic_view x.0, trees x.1.now)) result (associated_body (levels room) (name_view name.now) at (trees tokens.now)) }
{
    let ident = name.try_clone(alloc)?;
    if let Some((value, rest)) = read_constant(alloc, tokens)? {
        return Ok((associated_constant(ident, value), rest));
    }
    let (inner, rest) = read_ty(room, alloc, at, tokens)?;
    Ok((associated_type(ident, inner), rest))
}
