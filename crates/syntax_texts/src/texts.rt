//! The parsers of texts. Each token has the literal's span. A text that has no tokens is an error of kind `Lex` there; where
//! the tokens end, an error has that span too.
ghost use Rattle.std.specs.Prelude.{◌≡◌, IfOk, IfErr, Ok, map};
ghost use Rattle.std.specs.Str.{chars};
ghost use Rattle.token_trees.specs.View.{stream};
ghost use Rattle.rust_tokens.specs.Reading.{IsLexed};
ghost use Rattle.syntax_trees.specs.View.{ty, path_view, expr_path_view, lifetime_view, lit_str_view};
ghost use Rattle.syntax_trees.specs.Item.{predicate_view};
ghost use Rattle.syntax_parsers.specs.Answer.{Answers};
ghost use Rattle.syntax_parsers.specs.Lifetimes.{lifetimes_of};
ghost use Rattle.syntax_parsers.specs.Whole.{path_of, expr_path_of, type_of, predicates_of};
ghost use Rattle.syntax_texts.specs.Texts.{ReadsText, IsFaultOf, IsLexFault};

use crate::nesting::is_shallow;
use rust_tokens::{LexError, TokenStream, lex};
use std::alloc::Global;
use syntax_parsers::{
    ParseFault, read_lifetimes, read_where, read_whole_expr_path, read_whole_path, read_whole_type,
};
use syntax_trees::{ExprPath, Lifetime, LitStr, Path, SyntaxError, SyntaxKind, Ty, WherePredicate};

// The tokens of the text, each with the literal's span.
fn tokens_of(alloc: Global, lit: &LitStr) -> Result<TokenStream, ParseFault>
    ensures tokens { IfOk result (λ s. IsLexed (chars (lit_str_view lit.now).text) lit.now.span (stream s)) }
    ensures fault { IfErr result (IsLexFault (lit_str_view lit.now)) }
{
    match lex(alloc, &lit.value, lit.span) {
        Ok(tokens) => Ok(tokens),
        Err(LexError::Memory) => Err(ParseFault::Memory),
        Err(LexError::Bad { .. }) => Err(ParseFault::Syntax(SyntaxError {
            kind: SyntaxKind::Lex,
            span: lit.span,
        })),
    }
}

// The tokens of the text, whose types are nested as deep as they may be, or less; else memory is said to run out.
fn shallow_tokens_of(alloc: Global, lit: &LitStr) -> Result<TokenStream, ParseFault>
    ensures tokens { IfOk result (λ s. IsLexed (chars (lit_str_view lit.now).text) lit.now.span (stream s)) }
    ensures fault { IfErr result (IsLexFault (lit_str_view lit.now)) }
{
    let tokens = tokens_of(alloc, lit)?;
    match is_shallow(alloc, tokens.trees()) {
        Ok(true) => Ok(tokens),
        _ => Err(ParseFault::Memory),
    }
}

/// The path of the text, as `std::vec::Vec<T>`.
pub fn parse_path(alloc: Global, lit: &LitStr) -> Result<Path, ParseFault>
    ensures path { IfOk result (λ p. ReadsText path_of (lit_str_view lit.now) (Ok (path_view p))) }
    ensures fault { IfErr result (IsFaultOf path_of (lit_str_view lit.now)) }
{
    let tokens = shallow_tokens_of(alloc, lit)?;
    let path = read_whole_path(alloc, lit.span, tokens.trees())?;
    Ok(path)
}

/// The path of the text, with an optional `<T>::` or `<T as P>::` before it.
pub fn parse_expr_path(alloc: Global, lit: &LitStr) -> Result<ExprPath, ParseFault>
    ensures path { IfOk result (λ p. ReadsText expr_path_of (lit_str_view lit.now) (Ok (expr_path_view p))) }
    ensures fault { IfErr result (IsFaultOf expr_path_of (lit_str_view lit.now)) }
{
    let tokens = shallow_tokens_of(alloc, lit)?;
    let path = read_whole_expr_path(alloc, lit.span, tokens.trees())?;
    Ok(path)
}

/// The type of the text.
pub fn parse_type(alloc: Global, lit: &LitStr) -> Result<Ty, ParseFault>
    ensures tree { IfOk result (λ t. ReadsText type_of (lit_str_view lit.now) (Ok (ty t))) }
    ensures fault { IfErr result (IsFaultOf type_of (lit_str_view lit.now)) }
{
    let tokens = shallow_tokens_of(alloc, lit)?;
    let tree = read_whole_type(alloc, lit.span, tokens.trees())?;
    Ok(tree)
}

/// The predicates of the text, with a comma between any two, and one more behind the last where you like; none of no text.
pub fn parse_where(alloc: Global, lit: &LitStr) -> Result<Vec<WherePredicate>, ParseFault>
    ensures predicates { IfOk result (λ v. ReadsText predicates_of (lit_str_view lit.now) (Ok (map predicate_view v.items))) }
    ensures fault { IfErr result (IsFaultOf predicates_of (lit_str_view lit.now)) }
{
    let tokens = shallow_tokens_of(alloc, lit)?;
    let predicates = read_where(alloc, lit.span, tokens.trees())?;
    Ok(predicates)
}

/// The lifetimes of the text, with a `+` between any two, and one more behind the last where you like. Repeats are kept.
pub fn parse_lifetimes(alloc: Global, lit: &LitStr) -> Result<Vec<Lifetime>, ParseFault>
    ensures lifetimes { IfOk result (λ v. ReadsText (λ _. lifetimes_of) (lit_str_view lit.now) (Ok (map lifetime_view v.items))) }
    ensures fault { IfErr result (IsFaultOf (λ _. lifetimes_of) (lit_str_view lit.now)) }
{
    let tokens = tokens_of(alloc, lit)?;
    let lifetimes = read_lifetimes(alloc, tokens.trees())?;
    Ok(lifetimes)
}
