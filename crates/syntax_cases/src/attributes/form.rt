//! The type that a form makes of a text.
use rust_syntax::{
    Expr, GenericArgument, LitStr, Member, ParseFault, Path, PathArguments, PathSegment, ToTokens,
    Ty, parse_expr_path, parse_type,
};
use rust_tokens::{Ident, Spacing, Span, TokenStream};
use std::alloc::{AllocError, Global};

pub(crate) fn literal(alloc: Global, text: &str) -> Result<LitStr, AllocError> {
    Ok(LitStr {
        value: String::from_str(alloc, text)?,
        suffix: String::new(alloc),
        span: Span::call_site(),
    })
}

pub(crate) fn name(alloc: Global, text: &str) -> Result<Ident, AllocError> {
    Ok(Ident {
        text: String::from_str(alloc, text)?,
        span: Span::call_site(),
    })
}

fn read_type(alloc: Global, text: &str) -> Result<Ty, ParseFault> {
    let lit = literal(alloc, text)?;
    let ty = parse_type(alloc, &lit)?;
    Ok(ty)
}

fn read_box(alloc: Global, text: &str) -> Result<Box<Ty>, ParseFault> {
    let ty = read_type(alloc, text)?;
    let boxed = Box::new(alloc, ty)?;
    Ok(boxed)
}

fn path_expr(alloc: Global, text: &str) -> Result<Expr, ParseFault> {
    let lit = literal(alloc, text)?;
    let path = parse_expr_path(alloc, &lit)?;
    Ok(Expr::Path(path))
}

fn path_box(alloc: Global, text: &str) -> Result<Box<Expr>, ParseFault> {
    let expr = path_expr(alloc, text)?;
    let boxed = Box::new(alloc, expr)?;
    Ok(boxed)
}

fn sign(alloc: Global, ch: char) -> Result<TokenStream, AllocError> {
    let mut tokens = TokenStream::new(alloc);
    tokens.push_mark(ch, Spacing::Alone)?;
    Ok(tokens)
}

fn call_of(alloc: Global, text: &str) -> Result<Expr, ParseFault> {
    let callee = path_box(alloc, text)?;
    let mut args = Vec::new(alloc);
    args.push(path_expr(alloc, text)?)?;
    Ok(Expr::Call(callee, args))
}

// An expression over the path that the text spells; the type of a cast is that of the same text.
fn expr_of(alloc: Global, form: &str, text: &str) -> Result<Expr, ParseFault> {
    match form {
        "binary" => {
            let left = path_box(alloc, text)?;
            let op = sign(alloc, '+')?;
            let right = path_box(alloc, text)?;
            Ok(Expr::Binary(left, op, right))
        }
        "call" => call_of(alloc, text),
        "cast" => {
            let value = path_box(alloc, text)?;
            let to = read_box(alloc, text)?;
            Ok(Expr::Cast(value, to))
        }
        "field" => {
            let value = path_box(alloc, text)?;
            Ok(Expr::Field(value, Member::Unnamed(0)))
        }
        "index" => {
            let value = path_box(alloc, text)?;
            let at = path_box(alloc, text)?;
            Ok(Expr::Index(value, at))
        }
        "paren" => {
            let inner = path_box(alloc, text)?;
            Ok(Expr::Paren(inner))
        }
        "unary" => {
            let op = sign(alloc, '-')?;
            let inner = path_box(alloc, text)?;
            Ok(Expr::Unary(op, inner))
        }
        _ => path_expr(alloc, text),
    }
}

// `Holder<..>` with that one argument.
fn holder(alloc: Global, argument: GenericArgument) -> Result<Ty, AllocError> {
    let mut args = Vec::new(alloc);
    args.push(argument)?;
    let mut segments = Vec::new(alloc);
    segments.push(PathSegment {
        ident: name(alloc, "Holder")?,
        arguments: PathArguments::Angle {
            turbofish: false,
            args,
        },
    })?;
    let path = Path {
        leading: false,
        segments,
    };
    Ok(Ty::Path { qself: None, path })
}

fn verbatim(alloc: Global, text: &str) -> Result<Ty, ParseFault> {
    let ty = read_type(alloc, text)?;
    let mut tokens = TokenStream::new(alloc);
    ty.to_tokens(&mut tokens)?;
    Ok(Ty::Verbatim(tokens))
}

fn constant(alloc: Global, text: &str) -> Result<Ty, ParseFault> {
    let value = path_expr(alloc, text)?;
    let ty = holder(alloc, GenericArgument::Const(value))?;
    Ok(ty)
}

fn named_constant(alloc: Global, text: &str) -> Result<Ty, ParseFault> {
    let value = path_expr(alloc, text)?;
    let ident = name(alloc, "LEN")?;
    let ty = holder(alloc, GenericArgument::AssocConst { ident, value })?;
    Ok(ty)
}

fn array(alloc: Global, form: &str, text: &str) -> Result<Ty, ParseFault> {
    let elem = read_box(alloc, "u8")?;
    let len = expr_of(alloc, form, text)?;
    let len = Box::new(alloc, len)?;
    Ok(Ty::Array(elem, len))
}

/// The type that a form makes of a text.
pub(crate) fn ty_of(alloc: Global, form: &str, text: &str) -> Result<Ty, ParseFault> {
    match form {
        "type" => read_type(alloc, text),
        "group" => {
            let inner = read_box(alloc, text)?;
            Ok(Ty::Group(inner))
        }
        "verbatim" => verbatim(alloc, text),
        "constant" => constant(alloc, text),
        "named_constant" => named_constant(alloc, text),
        _ => array(alloc, form, text),
    }
}
