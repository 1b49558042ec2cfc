//! An attribute from its text.
use crate::attributes::numbers::{Places, placed_trees};
use rust_syntax::{
    Attribute, Meta, ParseFault, Path, PathArguments, PathSegment, SyntaxError, SyntaxKind,
};
use rust_tokens::{LexError, Span, TokenStream, TokenTree, lex};
use std::alloc::{AllocError, Global};

/// A line that tells no case.
pub(crate) fn no_case() -> ParseFault {
    ParseFault::Syntax(SyntaxError {
        kind: SyntaxKind::UnexpectedToken,
        span: Span::call_site(),
    })
}

fn lexed(alloc: Global, text: &str) -> Result<TokenStream, ParseFault> {
    match lex(alloc, text, Span::call_site()) {
        Ok(stream) => Ok(stream),
        Err(LexError::Memory) => Err(ParseFault::Memory),
        Err(LexError::Bad { .. }) => Err(no_case()),
    }
}

// A token of the path in front.
fn is_of_path(tree: &TokenTree) -> bool {
    match tree {
        TokenTree::Ident(_) => true,
        TokenTree::Punct(punct) => punct.ch == ':',
        _ => false,
    }
}

// The path in front, and what stands behind it.
fn split(trees: &[TokenTree]) -> (&[TokenTree], &[TokenTree]) {
    match trees.iter().position(|tree| !is_of_path(tree)) {
        Some(len) => trees.split_at(len),
        None => (trees, &[]),
    }
}

fn path_of(alloc: Global, trees: &[TokenTree]) -> Result<Path, AllocError> {
    let mut segments = Vec::new(alloc);
    for tree in trees {
        if let TokenTree::Ident(name) = tree {
            segments.push(PathSegment {
                ident: name.try_clone(alloc)?,
                arguments: PathArguments::None,
            })?;
        }
    }
    Ok(Path {
        leading: matches!(trees.first(), Some(TokenTree::Punct(_))),
        segments,
    })
}

// The attribute of these tokens, which take the next places.
fn meta_of(alloc: Global, trees: &[TokenTree], places: &mut Places) -> Result<Meta, ParseFault> {
    let (front, rest) = split(trees);
    let front = placed_trees(alloc, front, 9, places)?;
    let path = path_of(alloc, front.trees())?;
    match rest {
        [] => Ok(Meta::Path(path)),
        [TokenTree::Group(group)] => {
            let lo = places.next();
            let tokens = placed_trees(alloc, group.stream.trees(), 9, places)?;
            let hi = places.next();
            Ok(Meta::List {
                path,
                tokens,
                span: Span { file: 0, lo, hi },
            })
        }
        [TokenTree::Punct(_), value @ ..] => {
            let _ = places.next();
            Ok(Meta::NameValue {
                path,
                value: placed_trees(alloc, value, 9, places)?,
            })
        }
        _ => Err(no_case()),
    }
}

/// The attribute of a text: a path, a list in brackets, or a value behind `=`. Its tokens take the next places.
pub(crate) fn attribute_of(
    alloc: Global,
    text: &str,
    places: &mut Places,
) -> Result<Attribute, ParseFault> {
    let tokens = lexed(alloc, text)?;
    let meta = meta_of(alloc, tokens.trees(), places)?;
    Ok(Attribute { meta })
}
