//! Copies of tokens.
ghost use Rattle.std.specs.Prelude.{◌≡◌, IfOk, ◌∷◌, []};
ghost use Rattle.token_trees.specs.Token.{fixed};
ghost use Rattle.token_trees.specs.View.{trees, tree as tree_view, group_view, fixed_view, stream, name_view};
ghost use Rattle.syntax_trees.specs.View.{lifetime_view};

use std::alloc::{AllocError, Global};
use syntax_trees::Lifetime;
use token_trees::{Group, Ident, Literal, Span, TokenStream, TokenTree};

fn copy_group(alloc: Global, from: &Group) -> Result<Group, AllocError>
    ensures { IfOk result (λ g. group_view g ≡ group_view from.now) }
{
    Ok(Group {
        delimiter: from.delimiter,
        stream: from.stream.try_clone(alloc)?,
        span: from.span,
    })
}

fn copy_tree(alloc: Global, from: &TokenTree) -> Result<TokenTree, AllocError>
    ensures { IfOk result (λ t. tree_view t ≡ tree_view from.now) }
{
    match from {
        TokenTree::Ident(name) => Ok(TokenTree::Ident(name.try_clone(alloc)?)),
        TokenTree::Punct(punct) => Ok(TokenTree::Punct(*punct)),
        TokenTree::Literal(literal) => Ok(TokenTree::Literal(copy_literal(alloc, literal)?)),
        TokenTree::Group(group) => Ok(TokenTree::Group(copy_group(alloc, group)?)),
    }
}

pub(crate) fn copy_literal(alloc: Global, from: &Literal) -> Result<Literal, AllocError>
    ensures lit { IfOk result (λ l. fixed_view l.lit ≡ fixed_view from.now.lit) }
    ensures span { IfOk result (λ l. l.span ≡ from.now.span) }
{
    Ok(Literal {
        lit: from.lit.try_clone(alloc)?,
        span: from.span,
    })
}

pub(crate) fn copy_lifetime(alloc: Global, name: &Ident, span: Span) -> Result<Lifetime, AllocError>
    ensures { IfOk result (λ l. lifetime_view l ≡ record { name = name_view name.now; span = span }) }
{
    Ok(Lifetime {
        ident: name.try_clone(alloc)?,
        span,
    })
}

pub(crate) fn copy_trees(alloc: Global, from: &[TokenTree]) -> Result<TokenStream, AllocError>
    ensures { IfOk result (λ s. stream s ≡ trees from.now) }
{
    let mut copy = TokenStream::new(alloc);
    let mut left = from;
    'trees: while let Some((first, rest)) = left.split_first() {
        copy.push(copy_tree(alloc, first)?)?;
        left = rest;
    }
    Ok(copy)
}

pub(crate) fn copy_one(alloc: Global, from: &TokenTree) -> Result<TokenStream, AllocError>
    ensures { IfOk result (λ s. stream s ≡ tree_view from.now ∷ []) }
{
    let mut copy = TokenStream::new(alloc);
    copy.push(copy_tree(alloc, from)?)?;
    Ok(copy)
}

fn constant_tree(literal: Literal) -> TokenTree
    ensures { tree_view result ≡ fixed (fixed_view literal.lit) literal.span }
{
    TokenTree::Literal(literal)
}

// A `-`, say, and a literal.
pub(crate) fn copy_two(
    alloc: Global,
    first: &TokenTree,
    literal: &Literal,
) -> Result<TokenStream, AllocError>
    ensures { IfOk result (λ s. stream s ≡ tree_view first.now ∷ fixed (fixed_view literal.now.lit) literal.now.span ∷ []) }
{
    let mut copy = copy_one(alloc, first)?;
    copy.push(constant_tree(copy_literal(alloc, literal)?))?;
    Ok(copy)
}
