//! Items from their tokens.
use crate::header::{named, params_of, parts_of, predicates_of, ty_of};
use crate::meta::{attributes, is_mark, no_case};
use rust_syntax::{Data, DeriveInput, Field, Fields, Generics, ParseFault, Variant};
use rust_tokens::{Delimiter, Group, Ident, Spacing, Span, TokenTree};
use std::alloc::Global;

// The name before a colon, where one stands there, and what is behind it.
fn label_of(trees: &[TokenTree]) -> (Option<&Ident>, &[TokenTree]) {
    match trees {
        [TokenTree::Ident(name), TokenTree::Punct(colon), rest @ ..] => {
            if colon.ch == ':' && matches!(colon.spacing, Spacing::Alone) {
                (Some(name), rest)
            } else {
                (None, trees)
            }
        }
        _ => (None, trees),
    }
}

fn field_of(alloc: Global, trees: &[TokenTree]) -> Result<Field, ParseFault> {
    let (attrs, rest) = attributes(alloc, trees)?;
    let (label, rest) = label_of(rest);
    let ident = match label {
        Some(name) => Some(name.try_clone(alloc)?),
        None => None,
    };
    Ok(Field {
        attrs,
        ident,
        ty: ty_of(alloc, rest)?,
    })
}

fn each_of(alloc: Global, group: &Group) -> Result<Vec<Field>, ParseFault> {
    let mut fields = Vec::new(alloc);
    for part in parts_of(alloc, group.stream.trees())? {
        fields.push(field_of(alloc, part)?)?;
    }
    Ok(fields)
}

// The fields in a group, or none.
fn fields_of(alloc: Global, trees: &[TokenTree]) -> Result<Fields, ParseFault> {
    match trees.first() {
        Some(TokenTree::Group(group)) => {
            let fields = each_of(alloc, group)?;
            match group.delimiter {
                Delimiter::Brace => Ok(Fields::Named(fields)),
                _ => Ok(Fields::Unnamed(fields)),
            }
        }
        _ => Ok(Fields::Unit),
    }
}

fn variant_of(alloc: Global, trees: &[TokenTree]) -> Result<Variant, ParseFault> {
    let (attrs, rest) = attributes(alloc, trees)?;
    let (name, rest) = named(rest)?;
    Ok(Variant {
        attrs,
        ident: name.try_clone(alloc)?,
        fields: fields_of(alloc, rest)?,
    })
}

fn variants_of(alloc: Global, trees: &[TokenTree]) -> Result<Vec<Variant>, ParseFault> {
    let mut variants = Vec::new(alloc);
    if let Some(TokenTree::Group(group)) = trees.first() {
        for part in parts_of(alloc, group.stream.trees())? {
            variants.push(variant_of(alloc, part)?)?;
        }
    }
    Ok(variants)
}

// The body behind that keyword.
fn body_of(alloc: Global, keyword: &Ident, trees: &[TokenTree]) -> Result<Data, ParseFault> {
    let at: Span = keyword.span;
    match keyword.text.as_str() {
        "struct" => Ok(Data::Struct(fields_of(alloc, trees)?, at)),
        "enum" => Ok(Data::Enum(variants_of(alloc, trees)?, at)),
        "union" => match trees.first() {
            Some(TokenTree::Group(group)) => Ok(Data::Union(each_of(alloc, group)?, at)),
            _ => Err(no_case()),
        },
        _ => Err(no_case()),
    }
}

// The parameters in front, and what stands behind them.
fn split_params(trees: &[TokenTree]) -> (&[TokenTree], &[TokenTree]) {
    match trees {
        [TokenTree::Punct(open), inner @ ..] => {
            if open.ch != '<' {
                return (&[], trees);
            }
            match inner.iter().position(|tree| is_mark(tree, '>')) {
                Some(len) => (&inner[..len], &inner[len + 1..]),
                None => (&[], trees),
            }
        }
        _ => (&[], trees),
    }
}

// What stands before the body, and the body.
fn split_body(trees: &[TokenTree]) -> (&[TokenTree], &[TokenTree]) {
    match trees
        .iter()
        .position(|tree| matches!(tree, TokenTree::Group(_)))
    {
        Some(len) => trees.split_at(len),
        None => (&[], &[]),
    }
}

/// The item that the tokens are.
pub fn item_of(alloc: Global, trees: &[TokenTree]) -> Result<DeriveInput, ParseFault> {
    let (attrs, rest) = attributes(alloc, trees)?;
    let (keyword, rest) = named(rest)?;
    let (name, rest) = named(rest)?;
    let (params, rest) = split_params(rest);
    let (predicates, body) = split_body(rest);
    Ok(DeriveInput {
        attrs,
        ident: name.try_clone(alloc)?,
        generics: Generics {
            params: params_of(alloc, params)?,
            where_clause: predicates_of(alloc, predicates)?,
        },
        body: body_of(alloc, keyword, body)?,
    })
}
