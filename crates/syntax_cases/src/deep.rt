//! Types and brackets that are nested deep, which a case gives by the piece that it repeats.
use crate::reading::show_error;
use crate::tokens::{PLACE, literal_value};
use rust_syntax::{LitStr, ParseFault, parse_type};
use rust_tokens::{TokenStream, lex, respan};
use std::alloc::{AllocError, Global};

fn push_copies(count: u32, piece: &str, out: &mut String) -> Result<(), AllocError> {
    for _ in 0..count {
        out.push_str(piece)?;
    }
    Ok(())
}

// Copies of what stands before the first `|`, what stands between, and as many copies of what stands behind the second.
fn repeated(alloc: Global, count: u32, pattern: &str) -> Result<Option<String>, AllocError> {
    let Some((before, rest)) = pattern.split_once('|') else {
        return Ok(None);
    };
    let Some((innermost, behind)) = rest.split_once('|') else {
        return Ok(None);
    };
    let mut text = String::new(alloc);
    push_copies(count, before, &mut text)?;
    text.push_str(innermost)?;
    push_copies(count, behind, &mut text)?;
    Ok(Some(text))
}

// Whether the type is taken, memory is wanted, or which error is told.
fn taken(alloc: Global, text: String) -> Result<String, AllocError> {
    let literal = LitStr {
        value: text,
        suffix: String::new(alloc),
        span: PLACE,
    };
    let mut out = String::new(alloc);
    match parse_type(alloc, &literal) {
        Ok(_) => out.push_str("taken")?,
        Err(ParseFault::Memory) => out.push_str("memory")?,
        Err(ParseFault::Syntax(error)) => show_error(&error, &mut out)?,
    }
    Ok(out)
}

// How long the tokens' text is, and whether that of a copy is the same.
fn measured(alloc: Global, stream: &TokenStream) -> Result<String, AllocError> {
    let text = stream.text(alloc)?;
    let copy = stream.try_clone(alloc)?;
    let copied = respan(alloc, &copy, PLACE)?.text(alloc)?;
    let length = text.len();
    let same = if copied == text { "the same" } else { "other" };
    format!(in alloc; "{length} long, copied {same}")
}

// What the tokens of a text are, or its fault.
fn lexed(alloc: Global, text: &str) -> Result<String, AllocError> {
    match lex(alloc, text, PLACE) {
        Ok(stream) => measured(alloc, &stream),
        Err(error) => format!(in alloc; "{error}"),
    }
}

// The text that a case gives by how often to repeat and a literal.
fn text_of(alloc: Global, case: &str) -> Result<Option<String>, AllocError> {
    let Some((digits, rest)) = case.split_once(' ') else {
        return Ok(None);
    };
    let Ok(count) = digits.parse::<u32>() else {
        return Ok(None);
    };
    match literal_value(alloc, rest)? {
        Some(pattern) => repeated(alloc, count, &pattern),
        None => Ok(None),
    }
}

/// Whether the type of a case is taken, by what stands behind the case's word.
pub(crate) fn deep_answer(alloc: Global, case: &str) -> Result<String, AllocError> {
    match text_of(alloc, case)? {
        Some(text) => taken(alloc, text),
        None => String::from_str(alloc, "no pattern"),
    }
}

/// What the tokens of a case are, by what stands behind the case's word.
pub(crate) fn brackets_answer(alloc: Global, case: &str) -> Result<String, AllocError> {
    match text_of(alloc, case)? {
        Some(text) => lexed(alloc, &text),
        None => String::from_str(alloc, "no pattern"),
    }
}
