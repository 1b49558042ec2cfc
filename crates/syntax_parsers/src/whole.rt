//! All tokens as a path, a type or predicates.
ghost use Rattle.std.specs.Prelude.{◌≡◌, ◌+◌, IfSome, map};
ghost use Rattle.token_trees.specs.View.{trees, tree as tree_view};
ghost use Rattle.syntax_trees.specs.View.{ty, path_view, expr_path_view};
ghost use Rattle.syntax_trees.specs.Item.{predicate_view};
ghost use Rattle.syntax_parsers.specs.Answer.{Answers};
ghost use Rattle.syntax_parsers.specs.Fronts.{weight, tree_weight};
ghost use Rattle.syntax_parsers.specs.Whole.{room, path_of, expr_path_of, type_of, predicates_of};

use crate::fault::ParseFault;
use crate::front::{missing_at, open_group};
use crate::predicates::read_all_predicates;
use crate::reader::{read_expr_path, read_path, read_ty};
use std::alloc::Global;
use syntax_trees::{ExprPath, Path, SyntaxKind, Ty, WherePredicate};
use token_trees::{Span, TokenTree};

// How many trees the token is, at all levels; `None` where no number says so.
#[cycle(weigh)]
#[tactic(auto, using(crate::proofs::Weights::opened_weight, crate::proofs::Weights::closed_weight))]
fn weigh_tree(token: &TokenTree) -> Option<usize>
    ensures { IfSome result (λ n. n ≡ tree_weight (tree_view token.now)) }
{
    match open_group(token) {
        None => Some(1),
        Some((_, inner, _)) => weigh(inner)?.checked_add(1),
    }
}

// The same of all tokens.
#[cycle(weigh)]
fn weigh(tokens: &[TokenTree]) -> Option<usize>
    ensures { IfSome result (λ n. n ≡ weight (trees tokens.now)) }
{
    let mut total = 0usize;
    let mut left = tokens;
    'trees: while let Some((first, rest)) = left.split_first() {
        total = total.checked_add(weigh_tree(first)?)?;
        left = rest;
    }
    Some(total)
}

// Room enough for all tokens; `None` where no number says so, and then no memory could hold them.
fn room_for(tokens: &[TokenTree]) -> Option<usize>
    ensures { IfSome result (λ n. n ≡ room (trees tokens.now)) }
{
    weigh(tokens)?.checked_mul(3)?.checked_add(3)
}

/// The path that the tokens are, `at` being the place of what holds them. Where they are none, the error's span is that of
/// the token that offends, or `at` where the tokens end.
#[tactic(auto, unfolding(crate::specs::Whole::path_of))]
pub fn read_whole_path(alloc: Global, at: Span, tokens: &[TokenTree]) -> Result<Path, ParseFault>
    ensures { Answers path_view result (path_of at (trees tokens.now)) }
{
    let Some(room) = room_for(tokens) else {
        return Err(ParseFault::Memory);
    };
    let (found, rest) = read_path(room, alloc, at, tokens)?;
    match rest {
        [] => Ok(found),
        [_, ..] => Err(missing_at(SyntaxKind::UnexpectedToken, at, rest)),
    }
}

/// The path that the tokens are, with an optional `<T>::` or `<T as P>::` before it.
#[tactic(auto, unfolding(crate::specs::Whole::expr_path_of))]
pub fn read_whole_expr_path(
    alloc: Global,
    at: Span,
    tokens: &[TokenTree],
) -> Result<ExprPath, ParseFault>
    ensures { Answers expr_path_view result (expr_path_of at (trees tokens.now)) }
{
    let Some(room) = room_for(tokens) else {
        return Err(ParseFault::Memory);
    };
    let (found, rest) = read_expr_path(room, alloc, at, tokens)?;
    match rest {
        [] => Ok(found),
        [_, ..] => Err(missing_at(SyntaxKind::UnexpectedToken, at, rest)),
    }
}

/// The type that the tokens are.
#[tactic(auto, unfolding(crate::specs::Whole::type_of))]
pub fn read_whole_type(alloc: Global, at: Span, tokens: &[TokenTree]) -> Result<Ty, ParseFault>
    ensures { Answers ty result (type_of at (trees tokens.now)) }
{
    let Some(room) = room_for(tokens) else {
        return Err(ParseFault::Memory);
    };
    let (found, rest) = read_ty(room, alloc, at, tokens)?;
    match rest {
        [] => Ok(found),
        [_, ..] => Err(missing_at(SyntaxKind::UnexpectedToken, at, rest)),
    }
}

/// The predicates that the tokens are, with a comma between any two, and one more behind the last where you like.
#[tactic(auto, unfolding(crate::specs::Whole::predicates_of))]
pub fn read_where(
    alloc: Global,
    at: Span,
    tokens: &[TokenTree],
) -> Result<Vec<WherePredicate>, ParseFault>
    ensures { Answers (λ v. map predicate_view v.items) result (predicates_of at (trees tokens.now)) }
{
    let Some(room) = room_for(tokens) else {
        return Err(ParseFault::Memory);
    };
    read_all_predicates(room, alloc, at, tokens)
}
