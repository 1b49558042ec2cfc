//! Lifetimes between `+`, as in the bounds of a lifetime.
ghost use Rattle.std.specs.Prelude.{◌≡◌, ◌∷◌, IfOk, map};
ghost use Rattle.token_trees.specs.View.{trees, tree as tree_view, name_view};
ghost use Rattle.token_trees.specs.Token.{span_of};
ghost use Rattle.syntax_trees.specs.Metas.{is_sign};
ghost use Rattle.syntax_trees.specs.View.{lifetime_view};
ghost use Rattle.syntax_parsers.specs.declared.fault.ParseFault.TheVariants.{Syntax};
ghost use Rattle.syntax_parsers.specs.Answer.{Answers, error};
ghost use Rattle.syntax_parsers.specs.Lifetimes.{one_lifetime, lifetimes_of};

use crate::fault::ParseFault;
use std::alloc::Global;
use syntax_trees::{Lifetime, SyntaxError, SyntaxKind};
use token_trees::{Spacing, TokenTree};

// The lifetime that a quote and a name are.
fn read_lifetime(alloc: Global, quote: &TokenTree, name: &TokenTree) -> Result<Lifetime, ParseFault>
    ensures { Answers lifetime_view result (one_lifetime (tree_view quote.now) (tree_view name.now)) }
{
    match (quote, name) {
        (TokenTree::Punct(punct), TokenTree::Ident(ident))
            if '\'' == punct.ch && punct.spacing == Spacing::Joint => {
            Ok(Lifetime {
                ident: ident.try_clone(alloc)?,
                span: punct.span,
            })
        }
        _ => Err(missing(SyntaxKind::ExpectedLifetime, quote)),
    }
}

// What is missing where that token stands.
fn missing(kind: SyntaxKind, here: &TokenTree) -> ParseFault
    ensures { result ≡ Syntax (error kind (span_of (tree_view here.now))) }
{
    ParseFault::Syntax(SyntaxError {
        kind,
        span: here.span(),
    })
}

fn is_plus(tree: &TokenTree) -> bool
    ensures { result ≡ is_sign 43 (tree_view tree.now) }
{
    match tree {
        TokenTree::Punct(punct) => '+' == punct.ch,
        _ => false,
    }
}

/// The lifetimes that the tokens spell: between `+`, with one more `+` at the end where you like, none for no tokens.
/// Where they spell none, the span is that of the token where a lifetime (ExpectedLifetime) or a `+` (ExpectedPlus) is
/// missing.
#[tactic(auto, using(crate::proofs::Steps::front_step))]
pub fn read_lifetimes(alloc: Global, tokens: &[TokenTree]) -> Result<Vec<Lifetime>, ParseFault>
    ensures { Answers (λ v. map lifetime_view v.items) result (lifetimes_of (trees tokens.now)) }
{
    let mut found = Vec::new(alloc);
    let mut left = tokens;
    'list: while let Some((quote, rest)) = left.split_first() {
        let Some((name, behind)) = rest.split_first() else {
            return Err(missing(SyntaxKind::ExpectedLifetime, quote));
        };
        found.push(read_lifetime(alloc, quote, name)?)?;
        let Some((plus, more)) = behind.split_first() else {
            return Ok(found);
        };
        if !is_plus(plus) {
            return Err(missing(SyntaxKind::ExpectedPlus, plus));
        }
        left = more;
    }
    Ok(found)
}
