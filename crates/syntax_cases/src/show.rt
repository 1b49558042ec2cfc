//! Trees as short texts. A path is its segments, each with a `/` before it but for the first of one that begins with none; its
//! arguments stand in `[..]`, with `!` before it where `::` stood there, or in `{..}`, with `>` before what is given back.
//! All else stands in `(..)`, behind the word for what it is.
use rust_syntax::{
    Bound, Expr, ExprPath, GenericArgument, Lifetime, Path, PathArguments, PathSegment, QSelf, Ty,
    WherePredicate,
};
use rust_tokens::{Delimiter, Lit, Spacing, TokenTree};
use std::alloc::AllocError;
use std::fmt::Write;

fn brackets(delimiter: Delimiter) -> (&'static str, &'static str) {
    match delimiter {
        Delimiter::Parenthesis => (" (", " )"),
        Delimiter::Brace => (" {", " }"),
        Delimiter::Bracket => (" [", " ]"),
        Delimiter::None => ("", ""),
    }
}

fn show_literal(literal: &Lit, out: &mut String) -> Result<(), AllocError> {
    match literal {
        Lit::Str { value, .. } => {
            out.push_str("\"")?;
            out.push_str(value)?;
            out.push_str("\"")
        }
        Lit::Int { digits } => out.push_str(digits),
        Lit::Other { text } => out.push_str(text),
    }
}

#[cycle(tokens)]
fn show_token(tree: &TokenTree, depth: u32, out: &mut String) -> Result<(), AllocError> {
    match tree {
        TokenTree::Ident(name) => {
            out.push_str(" ")?;
            out.push_str(&name.text)
        }
        TokenTree::Punct(punct) => {
            out.push_str(" ")?;
            out.push(punct.ch)?;
            if punct.spacing == Spacing::Joint {
                out.push_str("+")?;
            }
            Ok(())
        }
        TokenTree::Literal(literal) => {
            out.push_str(" ")?;
            show_literal(&literal.lit, out)
        }
        TokenTree::Group(group) => {
            let (before, behind) = brackets(group.delimiter);
            out.push_str(before)?;
            if depth > 0 {
                show_tokens(group.stream.trees(), depth - 1, out)?;
            }
            out.push_str(behind)
        }
    }
}

#[cycle(tokens)]
fn show_tokens(tokens: &[TokenTree], depth: u32, out: &mut String) -> Result<(), AllocError> {
    for tree in tokens {
        show_token(tree, depth, out)?;
    }
    Ok(())
}

fn show_lifetime(from: &Lifetime, out: &mut String) -> Result<(), AllocError> {
    out.push_str("'")?;
    out.push_str(&from.ident.text)
}

fn show_word(word: &str, is_there: bool, out: &mut String) -> Result<(), AllocError> {
    if is_there {
        out.push_str(word)?;
    }
    Ok(())
}

#[cycle(show)]
pub(crate) fn show_ty(from: &Ty, out: &mut String) -> Result<(), AllocError> {
    match from {
        Ty::Array(elem, len) => {
            out.push_str("(array ")?;
            show_ty(elem, out)?;
            out.push_str(" ")?;
            show_expr(len, out)?;
        }
        Ty::FnPtr { inputs, output } => {
            out.push_str("(fn")?;
            show_tys(inputs, out)?;
            show_output(output, out)?;
        }
        Ty::Group(inner) => {
            out.push_str("(group ")?;
            show_ty(inner, out)?;
        }
        Ty::ImplTrait(bounds) => {
            out.push_str("(impl")?;
            show_bounds(bounds, out)?;
        }
        Ty::Infer(_) => out.push_str("(infer")?,
        Ty::Macro { path, tokens } => {
            out.push_str("(macro ")?;
            show_path(path, out)?;
            show_tokens(tokens.trees(), 3, out)?;
        }
        Ty::Never(_) => out.push_str("(never")?,
        Ty::Paren(inner) => {
            out.push_str("(paren ")?;
            show_ty(inner, out)?;
        }
        Ty::Path { qself, path } => {
            show_front(qself, out)?;
            show_path(path, out)?;
            return show_word(")", qself.is_some(), out);
        }
        Ty::Ptr { mutable, elem } => {
            out.push_str("(ptr ")?;
            show_word("mut ", *mutable, out)?;
            show_ty(elem, out)?;
        }
        Ty::Reference {
            lifetime,
            mutable,
            elem,
        } => {
            out.push_str("(ref ")?;
            if let Some(lifetime) = lifetime {
                show_lifetime(lifetime, out)?;
                out.push_str(" ")?;
            }
            show_word("mut ", *mutable, out)?;
            show_ty(elem, out)?;
        }
        Ty::Slice(elem) => {
            out.push_str("(slice ")?;
            show_ty(elem, out)?;
        }
        Ty::TraitObject(bounds) => {
            out.push_str("(dyn")?;
            show_bounds(bounds, out)?;
        }
        Ty::Tuple(elems) => {
            out.push_str("(tuple")?;
            show_tys(elems, out)?;
        }
        Ty::Verbatim(tokens) => {
            out.push_str("(raw")?;
            show_tokens(tokens.trees(), 3, out)?;
        }
    }
    out.push_str(")")
}

#[cycle(show)]
fn show_tys(from: &Vec<Ty>, out: &mut String) -> Result<(), AllocError> {
    for item in from {
        out.push_str(" ")?;
        show_ty(item, out)?;
    }
    Ok(())
}

#[cycle(show)]
fn show_output(from: &Option<Box<Ty>>, out: &mut String) -> Result<(), AllocError> {
    match from {
        None => Ok(()),
        Some(inner) => {
            out.push_str(" > ")?;
            show_ty(inner, out)
        }
    }
}

// The type before a path and the number of segments that the `>` stands behind.
#[cycle(show)]
fn show_front(from: &Option<Box<QSelf>>, out: &mut String) -> Result<(), AllocError> {
    match from {
        None => Ok(()),
        Some(front) => {
            out.push_str("(as ")?;
            show_ty(&front.ty, out)?;
            write!(out, " {} ", front.position)
        }
    }
}

#[cycle(show)]
pub(crate) fn show_path(from: &Path, out: &mut String) -> Result<(), AllocError> {
    let mut between = from.leading;
    for item in &from.segments {
        show_word("/", between, out)?;
        between = true;
        show_segment(item, out)?;
    }
    Ok(())
}

#[cycle(show)]
fn show_segment(from: &PathSegment, out: &mut String) -> Result<(), AllocError> {
    out.push_str(&from.ident.text)?;
    show_arguments(&from.arguments, out)
}

#[cycle(show)]
fn show_arguments(from: &PathArguments, out: &mut String) -> Result<(), AllocError> {
    match from {
        PathArguments::None => Ok(()),
        PathArguments::Angle { turbofish, args } => {
            show_word("!", *turbofish, out)?;
            out.push_str("[")?;
            show_generics(args, out)?;
            out.push_str(" ]")
        }
        PathArguments::Paren { inputs, output } => {
            out.push_str("{")?;
            show_tys(inputs, out)?;
            show_output(output, out)?;
            out.push_str(" }")
        }
    }
}

#[cycle(show)]
fn show_generics(from: &Vec<GenericArgument>, out: &mut String) -> Result<(), AllocError> {
    for item in from {
        out.push_str(" ")?;
        show_generic(item, out)?;
    }
    Ok(())
}

#[cycle(show)]
fn show_generic(from: &GenericArgument, out: &mut String) -> Result<(), AllocError> {
    match from {
        GenericArgument::Lifetime(lifetime) => return show_lifetime(lifetime, out),
        GenericArgument::Ty(inner) => return show_ty(inner, out),
        GenericArgument::Const(value) => {
            out.push_str("(const ")?;
            show_expr(value, out)?;
        }
        GenericArgument::AssocType { ident, ty } => {
            out.push_str("(type ")?;
            out.push_str(&ident.text)?;
            out.push_str(" ")?;
            show_ty(ty, out)?;
        }
        GenericArgument::AssocConst { ident, value } => {
            out.push_str("(value ")?;
            out.push_str(&ident.text)?;
            out.push_str(" ")?;
            show_expr(value, out)?;
        }
        GenericArgument::Constraint { ident, bounds } => {
            out.push_str("(bound ")?;
            out.push_str(&ident.text)?;
            show_bounds(bounds, out)?;
        }
    }
    out.push_str(")")
}

#[cycle(show)]
fn show_expr(from: &Expr, out: &mut String) -> Result<(), AllocError> {
    match from {
        Expr::Lit(literal) => return show_literal(&literal.lit, out),
        Expr::Path(path) => {
            out.push_str("(path ")?;
            show_expr_path(path, out)?;
        }
        Expr::Verbatim(tokens) => {
            out.push_str("(raw")?;
            show_tokens(tokens.trees(), 3, out)?;
        }
        _ => out.push_str("(other")?,
    }
    out.push_str(")")
}

#[cycle(show)]
pub(crate) fn show_expr_path(from: &ExprPath, out: &mut String) -> Result<(), AllocError> {
    show_front(&from.qself, out)?;
    show_path(&from.path, out)?;
    show_word(")", from.qself.is_some(), out)
}

#[cycle(show)]
fn show_bounds(from: &Vec<Bound>, out: &mut String) -> Result<(), AllocError> {
    for item in from {
        out.push_str(" ")?;
        show_bound(item, out)?;
    }
    Ok(())
}

#[cycle(show)]
fn show_bound(from: &Bound, out: &mut String) -> Result<(), AllocError> {
    match from {
        Bound::Trait(path) => show_path(path, out),
        Bound::Lifetime(lifetime) => show_lifetime(lifetime, out),
    }
}

fn show_each_lifetime(from: &[Lifetime], out: &mut String) -> Result<(), AllocError> {
    for item in from {
        out.push_str(" ")?;
        show_lifetime(item, out)?;
    }
    Ok(())
}

pub(crate) fn show_lifetimes(from: &[Lifetime], out: &mut String) -> Result<(), AllocError> {
    out.push_str("(list")?;
    show_each_lifetime(from, out)?;
    out.push_str(")")
}

fn show_predicate(from: &WherePredicate, out: &mut String) -> Result<(), AllocError> {
    out.push_str("(")?;
    match from {
        WherePredicate::Ty { ty, bounds } => {
            show_ty(ty, out)?;
            out.push_str(" :")?;
            show_bounds(bounds, out)?;
        }
        WherePredicate::Lifetime { lifetime, bounds } => {
            show_lifetime(lifetime, out)?;
            out.push_str(" :")?;
            show_each_lifetime(bounds, out)?;
        }
    }
    out.push_str(")")
}

pub(crate) fn show_predicates(from: &[WherePredicate], out: &mut String) -> Result<(), AllocError> {
    out.push_str("(list")?;
    for item in from {
        out.push_str(" ")?;
        show_predicate(item, out)?;
    }
    out.push_str(")")
}
