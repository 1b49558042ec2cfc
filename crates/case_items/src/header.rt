//! Names and parameters of items.
use crate::meta::no_case;
use rust_syntax::{GenericParam, Lifetime, ParseFault, Ty, WherePredicate};
use rust_tokens::{Ident, Span, TokenTree};
use std::alloc::Global;
use syntax_parsers::{read_where, read_whole_type};

/// The type that the tokens are.
pub fn ty_of(alloc: Global, trees: &[TokenTree]) -> Result<Ty, ParseFault> {
    read_whole_type(alloc, Span::call_site(), trees)
}

// A parameter: `'a`, `const N: usize`, or a name.
fn param_of(alloc: Global, trees: &[TokenTree]) -> Result<GenericParam, ParseFault> {
    match trees {
        [TokenTree::Punct(quote), TokenTree::Ident(name)] => {
            Ok(GenericParam::Lifetime(Lifetime {
                ident: name.try_clone(alloc)?,
                span: quote.span,
            }))
        }
        [TokenTree::Ident(name)] => Ok(GenericParam::Ty {
            ident: name.try_clone(alloc)?,
            bounds: Vec::new(alloc),
        }),
        [TokenTree::Ident(_), TokenTree::Ident(name), _, ty @ ..] => Ok(GenericParam::Const {
            ident: name.try_clone(alloc)?,
            ty: ty_of(alloc, ty)?,
        }),
        _ => Err(no_case()),
    }
}

/// The parameters between commas.
pub(crate) fn params_of(
    alloc: Global,
    trees: &[TokenTree],
) -> Result<Vec<GenericParam>, ParseFault> {
    let mut params = Vec::new(alloc);
    for part in parts_of(alloc, trees)? {
        params.push(param_of(alloc, part)?)?;
    }
    Ok(params)
}

/// The predicates behind `where`, if it is there.
pub(crate) fn predicates_of(
    alloc: Global,
    trees: &[TokenTree],
) -> Result<Vec<WherePredicate>, ParseFault> {
    match trees {
        [TokenTree::Ident(_), predicates @ ..] => {
            read_where(alloc, Span::call_site(), predicates)
        }
        _ => Ok(Vec::new(alloc)),
    }
}

// How many angle brackets are open behind the token, by how many are before it.
fn depth_behind(tree: &TokenTree, before: usize) -> usize {
    match tree {
        TokenTree::Punct(punct) => match punct.ch {
            '<' => before.saturating_add(1),
            '>' => before.saturating_sub(1),
            _ => before,
        },
        _ => before,
    }
}

/// What stands between commas that no angle bracket is open before; a last part without tokens is none.
pub(crate) fn parts_of(
    alloc: Global,
    trees: &[TokenTree],
) -> Result<Vec<&[TokenTree]>, ParseFault> {
    let mut parts = Vec::new(alloc);
    let mut start = 0;
    let mut depth = 0;
    for (index, tree) in trees.iter().enumerate() {
        depth = depth_behind(tree, depth);
        if depth == 0 && crate::meta::is_mark(tree, ',') {
            parts.push(&trees[start..index])?;
            start = index + 1;
        }
    }
    if start < trees.len() {
        parts.push(&trees[start..])?;
    }
    Ok(parts)
}

/// The name at the front, and what stands behind it.
pub(crate) fn named(trees: &[TokenTree]) -> Result<(&Ident, &[TokenTree]), ParseFault> {
    match trees {
        [TokenTree::Ident(name), rest @ ..] => Ok((name, rest)),
        _ => Err(no_case()),
    }
}
