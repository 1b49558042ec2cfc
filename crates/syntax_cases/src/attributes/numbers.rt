//! Tokens with a place for each.
use rust_tokens::{Delimiter, Group, Ident, Literal, Punct, Span, TokenStream, TokenTree};
use std::alloc::{AllocError, Global};

/// The places that were given out: the tokens of a line are counted from 1.
#[derive(Drop)]
pub(crate) struct Places {
    pub last: u32,
}

/// The place of one number.
pub(crate) fn place(number: u32) -> Span {
    Span {
        file: 0,
        lo: number,
        hi: number,
    }
}

impl Places {
    /// The next place.
    pub(crate) fn next(&mut self) -> u32 {
        self.last = self.last.saturating_add(1);
        self.last
    }
}

// Braces stand for no delimiter.
fn shown(delimiter: Delimiter) -> Delimiter {
    match delimiter {
        Delimiter::Brace => Delimiter::None,
        other => other,
    }
}

// The token at the next place, with what is in it down to so many groups.
#[cycle(placed)]
fn placed(
    alloc: Global,
    tree: &TokenTree,
    depth: u8,
    places: &mut Places,
) -> Result<TokenTree, AllocError> {
    let first = places.next();
    match tree {
        TokenTree::Ident(name) => Ok(TokenTree::Ident(Ident {
            text: name.text.clone()?,
            span: place(first),
        })),
        TokenTree::Punct(punct) => Ok(TokenTree::Punct(Punct {
            ch: punct.ch,
            spacing: punct.spacing,
            span: place(first),
        })),
        TokenTree::Literal(literal) => Ok(TokenTree::Literal(Literal {
            lit: literal.lit.try_clone(alloc)?,
            span: place(first),
        })),
        TokenTree::Group(group) => {
            let stream = placed_trees(alloc, group.stream.trees(), depth, places)?;
            let span = Span {
                file: 0,
                lo: first,
                hi: places.next(),
            };
            Ok(TokenTree::Group(Group {
                delimiter: shown(group.delimiter),
                stream,
                span,
            }))
        }
    }
}

/// The tokens at the next places, with what is in them down to so many groups.
#[cycle(placed)]
pub(crate) fn placed_trees(
    alloc: Global,
    trees: &[TokenTree],
    depth: u8,
    places: &mut Places,
) -> Result<TokenStream, AllocError> {
    let mut out = TokenStream::new(alloc);
    if depth > 0 {
        for tree in trees {
            out.push(placed(alloc, tree, depth - 1, places)?)?;
        }
    }
    Ok(out)
}
