//! Copies of token trees.
ghost use Rattle.std.specs.Prelude.{◌≡◌, [], ◌∷◌, ◌++◌, IfOk, map};
ghost use Rattle.token_trees.specs.Token.{placed, group, toks_of};
ghost use Rattle.token_trees.specs.Marked.{chosen, marked, IsToken};
ghost use Rattle.token_trees.specs.View.{tree, stream, fixed_view, name_view};

use crate::token::{Delimiter, Group, Ident, Lit, Literal, Punct, Span, TokenStream, TokenTree};
use std::alloc::{AllocError, Global};
use std::mem;

impl Ident {
    pub fn try_clone(&self, alloc: Global) -> Result<Ident, AllocError>
        ensures { IfOk result (λ i. name_view i ≡ name_view self.now) }
    {
        Ok(Ident {
            text: String::from_str(alloc, &self.text)?,
            span: self.span,
        })
    }
}

impl Lit {
    pub fn try_clone(&self, alloc: Global) -> Result<Lit, AllocError>
        ensures { IfOk result (λ l. fixed_view l ≡ fixed_view self.now) }
    {
        match self {
            Lit::Str { value, suffix } => Ok(Lit::Str {
                value: String::from_str(alloc, value)?,
                suffix: String::from_str(alloc, suffix)?,
            }),
            Lit::Int { digits } => Ok(Lit::Int {
                digits: String::from_str(alloc, digits)?,
            }),
            Lit::Other { text } => Ok(Lit::Other {
                text: String::from_str(alloc, text)?,
            }),
        }
    }
}

// The span that is given, or else the token's own.
fn chosen_span(given: Option<Span>, own: Span) -> Span
    ensures { result ≡ chosen given own }
{
    match given {
        Some(span) => span,
        None => own,
    }
}

// A tree that is no group.
fn copy_token(alloc: Global, from: &TokenTree, span: Option<Span>) -> Result<TokenTree, AllocError>
    requires { IsToken (tree from.now) }
    ensures { IfOk result (λ t. tree t ≡ marked span (tree from.now)) }
{
    match from {
        TokenTree::Ident(name) => Ok(TokenTree::Ident(Ident {
            text: String::from_str(alloc, &name.text)?,
            span: chosen_span(span, name.span),
        })),
        TokenTree::Punct(punct) => Ok(TokenTree::Punct(Punct {
            ch: punct.ch,
            spacing: punct.spacing,
            span: chosen_span(span, punct.span),
        })),
        TokenTree::Literal(literal) => Ok(TokenTree::Literal(Literal {
            lit: literal.lit.try_clone(alloc)?,
            span: chosen_span(span, literal.span),
        })),
        TokenTree::Group(_) => unreachable!(),
    }
}

// What stands round a group that is being copied: the copies of the trees before it, the trees behind it, and its own
// brackets and span.
#[derive(Drop)]
struct Level<'a> {
    copied: TokenStream,
    left: &'a [TokenTree],
    delimiter: Delimiter,
    span: Span,
}

impl Level<'_> {
    // The trees before the group and the group, which has those trees.
    fn closed(self, inner: TokenStream) -> Result<TokenStream, AllocError>
        ensures { IfOk result (λ s. stream s ≡ stream self.entry.copied ++ group self.entry.delimiter (toks_of (stream inner)) self.entry.span ∷ []) }
    {
        let Level {
            mut copied,
            delimiter,
            span,
            ..
        } = self;
        copied.push(TokenTree::Group(Group {
            delimiter,
            stream: inner,
            span,
        }))?;
        Ok(copied)
    }
}

// The trees of a stream, with that span at every level where one is given. The groups that are open stand in a list, so
// that deep groups want no deep stack.
fn copy_stream(
    alloc: Global,
    from: &TokenStream,
    span: Option<Span>,
) -> Result<TokenStream, AllocError>
    ensures { IfOk result (λ s. stream s ≡ map (marked span) (stream from.now)) }
{
    let mut levels: Vec<Level> = Vec::new(alloc);
    let mut copied = TokenStream::new(alloc);
    let mut left = from.trees();
    loop {
        if let Some((tree, rest)) = left.split_first() {
            if let TokenTree::Group(group) = tree {
                levels.push(Level {
                    copied: mem::replace(&mut copied, TokenStream::new(alloc)),
                    left: rest,
                    delimiter: group.delimiter,
                    span: chosen_span(span, group.span),
                })?;
                left = group.stream.trees();
            } else {
                copied.push(copy_token(alloc, tree, span)?)?;
                left = rest;
            }
        } else if let Some(level) = levels.pop() {
            left = level.left;
            copied = level.closed(copied)?;
        } else {
            return Ok(copied);
        }
    }
}

impl TokenStream {
    /// The same trees with their spans, or no memory.
    pub fn try_clone(&self, alloc: Global) -> Result<TokenStream, AllocError>
        ensures { IfOk result (λ s. stream s ≡ stream self.now) }
    {
        copy_stream(alloc, self, None)
    }
}

/// The same trees with that span at every level, or no memory.
pub fn respan(alloc: Global, from: &TokenStream, span: Span) -> Result<TokenStream, AllocError>
    ensures { IfOk result (λ s. stream s ≡ map (placed span) (stream from.now)) }
{
    copy_stream(alloc, from, Some(span))
}
