//! Predicates of a `where` clause.
ghost use Rattle.std.specs.Prelude.{◌≡◌, IfOk, map};
ghost use Rattle.token_trees.specs.View.{trees};
ghost use Rattle.syntax_trees.specs.View.{ty, bound_view, lifetime_view};
ghost use Rattle.syntax_trees.specs.Item.{predicate_view, predicate_ty, predicate_lifetime};
ghost use Rattle.syntax_parsers.specs.Answer.{Answers};
ghost use Rattle.syntax_trees.specs.declared.cursor.SyntaxKind.TheVariants.{UnexpectedToken};
ghost use Rattle.syntax_parsers.specs.Fronts.{colon_front};
ghost use Rattle.syntax_parsers.specs.Grammar.{required};
ghost use Rattle.syntax_parsers.specs.Read.{levels};
ghost use Rattle.syntax_parsers.specs.Where.{some_lifetimes, lifetime_predicate, type_predicate, predicate_body, some_predicates};

use crate::fault::ParseFault;
use crate::front::{after_colon, after_lifetime, after_sign, missing_at};
use crate::reader::{expect_sign, read_bounds, read_ty};
use crate::tokens::copy_lifetime;
use std::alloc::{AllocError, Global};
use syntax_trees::{Bound, Lifetime, SyntaxKind, Ty, WherePredicate};
use token_trees::{Span, TokenTree};

fn type_of_predicate(inner: Ty, bounds: Vec<Bound>) -> WherePredicate
    ensures { predicate_view result ≡ predicate_ty (ty inner) (map bound_view bounds.items) }
{
    WherePredicate::Ty { ty: inner, bounds }
}

fn lifetime_of_predicate(lifetime: Lifetime, bounds: Vec<Lifetime>) -> WherePredicate
    ensures { predicate_view result ≡ predicate_lifetime (lifetime_view lifetime) (map lifetime_view bounds.items) }
{
    WherePredicate::Lifetime { lifetime, bounds }
}

// Behind a `:` that begins no `::`.
fn expect_colon(at: Span, tokens: &[TokenTree]) -> Result<&[TokenTree], ParseFault>
    ensures { Answers (λ x. trees x.now) result (required (colon_front (trees tokens.now)) UnexpectedToken at (trees tokens.now)) }
{
    match after_colon(tokens) {
        None => Err(missing_at(SyntaxKind::UnexpectedToken, at, tokens)),
        Some(rest) => Ok(rest),
    }
}

// Lifetimes with a `+` between any two, and one more behind the last where you like.
fn read_some_lifetimes(
    room: usize,
    alloc: Global,
    tokens: &[TokenTree],
) -> Result<(Vec<Lifetime>, &[TokenTree]), AllocError>
    ensures lifetimes { IfOk result (λ x. map lifetime_view x.0.items ≡ (some_lifetimes room (trees tokens.now)).0) }
    ensures rest { IfOk result (λ x. trees x.1.now ≡ (some_lifetimes room (trees tokens.now)).1) }
{
    let mut found = Vec::new(alloc);
    let mut left = tokens;
    let mut depth = room;
    'list: while depth > 0 {
        depth -= 1;
        let Some((name, span, rest)) = after_lifetime(left) else {
            return Ok((found, left));
        };
        found.push(copy_lifetime(alloc, name, span)?)?;
        let Some(behind) = after_sign('+', rest) else {
            return Ok((found, rest));
        };
        left = behind;
    }
    Ok((found, left))
}

// Behind a lifetime: `: 'b + 'c`.
#[tactic(auto, unfolding(crate::specs::Where::lifetime_predicate))]
fn read_lifetime_predicate(
    room: usize,
    alloc: Global,
    at: Span,
    lifetime: Lifetime,
    tokens: &[TokenTree],
) -> Result<(WherePredicate, &[TokenTree]), ParseFault>
    ensures { Answers (λ x. (predicate_view x.0, trees x.1.now)) result (lifetime_predicate room (lifetime_view lifetime) at (trees tokens.now)) }
{
    let rest = expect_colon(at, tokens)?;
    let (bounds, end) = read_some_lifetimes(room, alloc, rest)?;
    Ok((lifetime_of_predicate(lifetime, bounds), end))
}

// `T: A + 'a`.
#[tactic(auto, unfolding(crate::specs::Where::type_predicate))]
fn read_type_predicate(
    room: usize,
    alloc: Global,
    at: Span,
    tokens: &[TokenTree],
) -> Result<(WherePredicate, &[TokenTree]), ParseFault>
    ensures { Answers (λ x. (predicate_view x.0, trees x.1.now)) result (type_predicate (levels room) at (trees tokens.now)) }
{
    let (inner, behind) = read_ty(room, alloc, at, tokens)?;
    let rest = expect_colon(at, behind)?;
    let (bounds, end) = read_bounds(room, alloc, at, rest)?;
    Ok((type_of_predicate(inner, bounds), end))
}

#[tactic(auto, unfolding(crate::specs::Where::predicate_body))]
fn read_predicate(
    room: usize,
    alloc: Global,
    at: Span,
    tokens: &[TokenTree],
) -> Result<(WherePredicate, &[TokenTree]), ParseFault>
    ensures { Answers (λ x. (predicate_view x.0, trees x.1.now)) result (predicate_body room (levels room) at (trees tokens.now)) }
{
    if let Some((name, span, rest)) = after_lifetime(tokens) {
        let lifetime = copy_lifetime(alloc, name, span)?;
        return read_lifetime_predicate(room, alloc, at, lifetime, rest);
    }
    read_type_predicate(room, alloc, at, tokens)
}

// All tokens as predicates with a comma between any two, and one more behind the last where you like.
pub(crate) fn read_all_predicates(
    room: usize,
    alloc: Global,
    at: Span,
    tokens: &[TokenTree],
) -> Result<Vec<WherePredicate>, ParseFault>
    ensures { Answers (λ v. map predicate_view v.items) result (some_predicates room room (levels room) at (trees tokens.now)) }
{
    let mut found = Vec::new(alloc);
    let mut left = tokens;
    let mut depth = room;
    'predicates: while depth > 0 {
        depth -= 1;
        if left.is_empty() {
            return Ok(found);
        }
        let (one, rest) = read_predicate(room, alloc, at, left)?;
        found.push(one)?;
        if rest.is_empty() {
            return Ok(found);
        }
        left = expect_sign(',', SyntaxKind::ExpectedComma, at, rest)?;
    }
    Err(missing_at(SyntaxKind::UnexpectedToken, at, left))
}
