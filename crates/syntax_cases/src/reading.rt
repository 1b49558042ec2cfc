//! What the text of a case is read as.
use crate::deep::{brackets_answer, deep_answer};
use crate::metas::metas_text;
use crate::show::{show_expr_path, show_lifetimes, show_path, show_predicates, show_ty};
use crate::tokens::{PLACE, literal_value, printed, tokens_of};
use rust_syntax::{
    LitStr, ParseFault, SyntaxError, SyntaxKind, parse_expr_path, parse_lifetimes, parse_path,
    parse_type, parse_where,
};
use rust_tokens::LexError;
use std::alloc::{AllocError, Global};

fn kind_name(kind: SyntaxKind) -> &'static str {
    match kind {
        SyntaxKind::ExpectedArguments => "ExpectedArguments",
        SyntaxKind::ExpectedPath => "ExpectedPath",
        SyntaxKind::ExpectedComma => "ExpectedComma",
        SyntaxKind::ExpectedEq => "ExpectedEq",
        SyntaxKind::ExpectedEqOrParen => "ExpectedEqOrParen",
        SyntaxKind::ExpectedParen => "ExpectedParen",
        SyntaxKind::ExpectedValue => "ExpectedValue",
        SyntaxKind::ExpectedIdent => "ExpectedIdent",
        SyntaxKind::ExpectedType => "ExpectedType",
        SyntaxKind::ExpectedGt => "ExpectedGt",
        SyntaxKind::ExpectedLifetime => "ExpectedLifetime",
        SyntaxKind::ExpectedPlus => "ExpectedPlus",
        SyntaxKind::ExpectedBound => "ExpectedBound",
        SyntaxKind::UnexpectedToken => "UnexpectedToken",
        SyntaxKind::Lex => "Lex",
    }
}

// The error's kind, and whether it stands elsewhere than at the literal.
pub(crate) fn show_error(error: &SyntaxError, out: &mut String) -> Result<(), AllocError> {
    out.push_str("! ")?;
    out.push_str(kind_name(error.kind))?;
    if error.span != PLACE {
        out.push_str(" elsewhere")?;
    }
    Ok(())
}

fn show_fault(fault: &ParseFault, out: &mut String) -> Result<(), AllocError> {
    match fault {
        ParseFault::Memory => Err(AllocError),
        ParseFault::Syntax(error) => show_error(error, out),
    }
}

fn read_type(alloc: Global, text: &LitStr) -> Result<String, AllocError> {
    let mut out = String::new(alloc);
    match parse_type(alloc, text) {
        Ok(tree) => show_ty(&tree, &mut out)?,
        Err(fault) => show_fault(&fault, &mut out)?,
    }
    Ok(out)
}

fn read_path(alloc: Global, text: &LitStr) -> Result<String, AllocError> {
    let mut out = String::new(alloc);
    match parse_path(alloc, text) {
        Ok(tree) => show_path(&tree, &mut out)?,
        Err(fault) => show_fault(&fault, &mut out)?,
    }
    Ok(out)
}

fn read_expr_path(alloc: Global, text: &LitStr) -> Result<String, AllocError> {
    let mut out = String::new(alloc);
    match parse_expr_path(alloc, text) {
        Ok(tree) => show_expr_path(&tree, &mut out)?,
        Err(fault) => show_fault(&fault, &mut out)?,
    }
    Ok(out)
}

fn read_predicates(alloc: Global, text: &LitStr) -> Result<String, AllocError> {
    let mut out = String::new(alloc);
    match parse_where(alloc, text) {
        Ok(found) => show_predicates(&found, &mut out)?,
        Err(fault) => show_fault(&fault, &mut out)?,
    }
    Ok(out)
}

fn read_lifetimes(alloc: Global, text: &LitStr) -> Result<String, AllocError> {
    let mut out = String::new(alloc);
    match parse_lifetimes(alloc, text) {
        Ok(found) => show_lifetimes(&found, &mut out)?,
        Err(fault) => show_fault(&fault, &mut out)?,
    }
    Ok(out)
}

fn read(alloc: Global, word: &str, text: String) -> Result<String, AllocError> {
    match word {
        "tokens" => return tokens_of(alloc, &text),
        "text" => return printed(alloc, &text),
        "metas" => return metas_text(alloc, &text),
        "memory" => return format!(in alloc; "{}", LexError::Memory),
        _ => {}
    }
    let literal = LitStr {
        value: text,
        suffix: String::new(alloc),
        span: PLACE,
    };
    match word {
        "type" => read_type(alloc, &literal),
        "path" => read_path(alloc, &literal),
        "expr_path" => read_expr_path(alloc, &literal),
        "where" => read_predicates(alloc, &literal),
        "lifetimes" => read_lifetimes(alloc, &literal),
        _ => String::from_str(alloc, "no such word"),
    }
}

/// What the text of the line's literal is read as, by the line's first word.
pub(crate) fn answer(alloc: Global, line: &str) -> Result<String, AllocError> {
    let Some((word, rest)) = line.split_once(' ') else {
        return String::from_str(alloc, "no case");
    };
    match word {
        "deep" => return deep_answer(alloc, rest),
        "brackets" => return brackets_answer(alloc, rest),
        _ => {}
    }
    match literal_value(alloc, rest)? {
        Some(text) => read(alloc, word, text),
        None => String::from_str(alloc, "no literal"),
    }
}
