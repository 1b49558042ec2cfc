//! What stands in front of items, variants and fields.
use rust_syntax::{
    Attribute, Meta, ParseFault, Path, PathArguments, PathSegment, SyntaxError, SyntaxKind,
};
use rust_tokens::{Ident, Span, TokenTree};
use std::alloc::{AllocError, Global};

/// A line that tells no case.
pub fn no_case() -> ParseFault {
    ParseFault::Syntax(SyntaxError {
        kind: SyntaxKind::UnexpectedToken,
        span: Span::call_site(),
    })
}

/// Whether the token is that mark.
pub(crate) fn is_mark(tree: &TokenTree, ch: char) -> bool {
    match tree {
        TokenTree::Punct(punct) => punct.ch == ch,
        _ => false,
    }
}

fn path_of(alloc: Global, name: &Ident) -> Result<Path, AllocError> {
    let mut segments = Vec::new(alloc);
    segments.push(PathSegment {
        ident: name.try_clone(alloc)?,
        arguments: PathArguments::None,
    })?;
    Ok(Path {
        leading: false,
        segments,
    })
}

// What stands in the brackets of an attribute.
fn meta_of(alloc: Global, trees: &[TokenTree]) -> Result<Meta, ParseFault> {
    let Some((TokenTree::Ident(name), rest)) = trees.split_first() else {
        return Err(no_case());
    };
    let path = path_of(alloc, name)?;
    match rest {
        [] => Ok(Meta::Path(path)),
        [TokenTree::Group(group)] => Ok(Meta::List {
            path,
            tokens: group.stream.try_clone(alloc)?,
            span: group.span,
        }),
        _ => Err(no_case()),
    }
}

/// The attributes in front, and what stands behind them.
pub(crate) fn attributes(
    alloc: Global,
    trees: &[TokenTree],
) -> Result<(Vec<Attribute>, &[TokenTree]), ParseFault> {
    let mut attrs = Vec::new(alloc);
    let mut rest = trees;
    'front: while let [TokenTree::Punct(_), TokenTree::Group(group), behind @ ..] = rest {
        let meta = meta_of(alloc, group.stream.trees())?;
        attrs.push(Attribute { meta })?;
        rest = behind;
    }
    Ok((attrs, rest))
}
