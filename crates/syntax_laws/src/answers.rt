//! The parsers of texts. Each token has the literal's span, and so has each error.
ghost use Rattle.std.specs.Prelude.{IfOk, IfErr, Ok, map};
ghost use Rattle.syntax_trees.specs.View.{ty, path_view, expr_path_view, lifetime_view, lit_str_view};
ghost use Rattle.syntax_trees.specs.Item.{predicate_view};
ghost use Rattle.syntax_parsers.specs.Lifetimes.{SpellsLifetimes, lifetimes_of};
ghost use Rattle.syntax_parsers.specs.SpellingForm.{SpellsTy, SpellsPath, SpellsExprPath};
ghost use Rattle.syntax_parsers.specs.Whole.{path_of, expr_path_of, type_of, predicates_of};
ghost use Rattle.syntax_texts.specs.Texts.{ReadsText, IsFaultOf};
ghost use Rattle.syntax_laws.specs.Predicates.{SpellsPredicates};
ghost use Rattle.syntax_laws.specs.TextSpelling.{AnswersText, predicate_views, lifetime_views};

use std::alloc::Global;
use syntax_parsers::ParseFault;
use syntax_trees::{ExprPath, Lifetime, LitStr, Path, Ty, WherePredicate};

/// The type of the text (The Rust Reference, types).
///
/// Where it spells none, an error of syntax: of kind `Lex` where it has no tokens, else of the kind that the grammar gives.
/// `Memory` where memory runs out.
pub fn parse_type(alloc: Global, lit: &LitStr) -> Result<Ty, ParseFault>
    ensures tree { IfOk result (λ t. ReadsText type_of (lit_str_view lit.now) (Ok (ty t))) }
    ensures fault { IfErr result (IsFaultOf type_of (lit_str_view lit.now)) }
    ensures spelled { AnswersText ty SpellsTy (lit_str_view lit.now) result }
{
    syntax_texts::parse_type(alloc, lit)
}

/// The path of the text, as `std::vec::Vec<T>` (The Rust Reference, paths). Errors as of `parse_type`.
pub fn parse_path(alloc: Global, lit: &LitStr) -> Result<Path, ParseFault>
    ensures path { IfOk result (λ p. ReadsText path_of (lit_str_view lit.now) (Ok (path_view p))) }
    ensures fault { IfErr result (IsFaultOf path_of (lit_str_view lit.now)) }
    ensures spelled { AnswersText path_view SpellsPath (lit_str_view lit.now) result }
{
    syntax_texts::parse_path(alloc, lit)
}

/// The path of the text, with an optional `<T>::` or `<T as P>::` before it (The Rust Reference, qualified paths). Errors as of
/// `parse_type`.
pub fn parse_expr_path(alloc: Global, lit: &LitStr) -> Result<ExprPath, ParseFault>
    ensures path { IfOk result (λ p. ReadsText expr_path_of (lit_str_view lit.now) (Ok (expr_path_view p))) }
    ensures fault { IfErr result (IsFaultOf expr_path_of (lit_str_view lit.now)) }
    ensures spelled { AnswersText expr_path_view SpellsExprPath (lit_str_view lit.now) result }
{
    syntax_texts::parse_expr_path(alloc, lit)
}

/// The predicates of the text, with a comma between any two, and one more behind the last where you like; none of no text (The
/// Rust Reference, where clauses). Errors as of `parse_type`.
pub fn parse_where(alloc: Global, lit: &LitStr) -> Result<Vec<WherePredicate>, ParseFault>
    ensures predicates { IfOk result (λ v. ReadsText predicates_of (lit_str_view lit.now) (Ok (map predicate_view v.items))) }
    ensures fault { IfErr result (IsFaultOf predicates_of (lit_str_view lit.now)) }
    ensures spelled { AnswersText predicate_views SpellsPredicates (lit_str_view lit.now) result }
{
    syntax_texts::parse_where(alloc, lit)
}

/// The lifetimes of the text, with a `+` between any two, and one more behind the last where you like; none of no text. Repeats
/// are kept (The Rust Reference, lifetime bounds). Errors as of `parse_type`.
pub fn parse_lifetimes(alloc: Global, lit: &LitStr) -> Result<Vec<Lifetime>, ParseFault>
    ensures lifetimes { IfOk result (λ v. ReadsText (λ _. lifetimes_of) (lit_str_view lit.now) (Ok (map lifetime_view v.items))) }
    ensures fault { IfErr result (IsFaultOf (λ _. lifetimes_of) (lit_str_view lit.now)) }
    ensures spelled { AnswersText lifetime_views SpellsLifetimes (lit_str_view lit.now) result }
{
    syntax_texts::parse_lifetimes(alloc, lit)
}
