//! The metas of a list, cut at its commas.
ghost use Rattle.std.specs.Prelude.{◌≡◌, ◌≢◌, ◌≤◌, ◌<◌, ◌∷◌, [], IfOk, length, map, drop};
ghost use Rattle.token_trees.specs.View.{trees};
ghost use Rattle.syntax_trees.specs.Metas.{sign_next, before_comma, from_comma, rest_of, place};
ghost use Rattle.attr_defs.specs.Metas.{piece_end, metas_in};
ghost use Rattle.attr_acts.specs.Parts.{part_view};

use std::alloc::{AllocError, Global};
use syntax_trees::{MetaCursor, SyntaxError};
use token_trees::{Span, TokenTree};

/// A meta: its path, what follows that up to the comma, and the place where this ends; or what does not read as one.
#[derive(Clone, Copy)]
pub enum Part<'a> {
    Meta {
        path: &'a [TokenTree],
        rest: &'a [TokenTree],
        end: Span,
    },
    Unread(SyntaxError),
}

/// Whether that character stands next.
pub fn is_sign_next(ch: char, tokens: &[TokenTree]) -> bool
    ensures { result ≡ sign_next ch (trees tokens.now) }
{
    match tokens {
        [TokenTree::Punct(punct), ..] => ch == punct.ch,
        _ => false,
    }
}

// How many tokens stand before the first comma.
fn comma_place(tokens: &[TokenTree]) -> usize
    ensures within { result ≤ length tokens.now }
    ensures after { drop result (trees tokens.now) ≡ from_comma (trees tokens.now) }
{
    let mut left = tokens;
    let mut passed = 0;
    while let Some((_, rest)) = left.split_first() {
        if is_sign_next(',', left) {
            return passed;
        }
        left = rest;
        passed += 1;
    }
    passed
}

// The tokens before the first comma, and those from it on.
fn split_at_comma(tokens: &[TokenTree]) -> (&[TokenTree], &[TokenTree])
    ensures front { trees result.0.now ≡ before_comma (trees tokens.now) }
    ensures back { trees result.1.now ≡ from_comma (trees tokens.now) }
    ensures len { length result.1.now ≤ length tokens.now }
{
    tokens.split_at(comma_place(tokens))
}

/// The span of the token that stands next, or `at` where none does.
pub fn place_next(at: Span, tokens: &[TokenTree]) -> Span
    ensures { result ≡ place at (trees tokens.now) }
{
    match tokens.first() {
        Some(token) => token.span(),
        None => at,
    }
}

/// What stands after the first token.
pub fn after_one(tokens: &[TokenTree]) -> &[TokenTree]
    ensures rest { trees result.now ≡ rest_of (trees tokens.now) }
    ensures len { length result.now ≤ length tokens.now }
{
    match tokens.split_first() {
        Some((_, rest)) => rest,
        None => &[],
    }
}

// What stands before the next comma, and the place where it ends; the comma is passed.
fn pass_comma<'a>(metas: &mut MetaCursor<'a>) -> (&'a [TokenTree], Span)
    ensures rest { trees result.0.now ≡ before_comma (trees metas.old.left.now) }
    ensures end { result.1 ≡ piece_end metas.old.at (trees metas.old.left.now) }
    ensures left { trees metas.new.left.now ≡ rest_of (from_comma (trees metas.old.left.now)) }
    ensures len { length metas.new.left.now ≤ length metas.old.left.now }
    ensures at { metas.new.at ≡ metas.old.at }
{
    let (rest, after) = split_at_comma(metas.left);
    let end = place_next(metas.at, after);
    metas.left = after_one(after);
    (rest, end)
}

// The first meta of tokens that aren't empty.
fn first_part<'a>(metas: &mut MetaCursor<'a>) -> Part<'a>
    requires { trees metas.old.left.now ≢ [] }
    ensures part { metas_in metas.old.at (trees metas.old.left.now) ≡ part_view result ∷ metas_in metas.old.at (trees metas.new.left.now) }
    ensures shorter { length metas.new.left.now < length metas.old.left.now }
    ensures at { metas.new.at ≡ metas.old.at }
{
    match metas.next() {
        Ok(Some(path)) => {
            let passed = pass_comma(metas);
            Part::Meta {
                path,
                rest: passed.0,
                end: passed.1,
            }
        }
        Ok(None) => unreachable!(),
        Err(error) => {
            pass_comma(metas);
            Part::Unread(error)
        }
    }
}

/// The metas of a list whose span is `at`, in order.
pub fn parts_in<'a>(
    alloc: Global,
    tokens: &'a [TokenTree],
    at: Span,
) -> Result<Vec<Part<'a>>, AllocError>
    ensures { IfOk result (λ v. map part_view v.items ≡ metas_in at (trees tokens.now)) }
{
    let mut metas = MetaCursor { left: tokens, at };
    let mut parts = Vec::new(alloc);
    while !metas.left.is_empty() {
        parts.push(first_part(&mut metas))?;
    }
    Ok(parts)
}
