//! Tokens as short texts: `w:` and a name, `p:` and a character (with `+` where it is joint), `s:` and a string literal with its
//! suffix, `d:` and digits, and groups between their brackets.
use rust_tokens::{Delimiter, LexError, Lit, Spacing, Span, TokenStream, TokenTree, lex};
use std::alloc::{AllocError, Global};
use std::fmt::Write;

/// The place that the tokens of a case have.
pub(crate) const PLACE: Span = Span {
    file: 1,
    lo: 2,
    hi: 3,
};

fn brackets(delimiter: Delimiter) -> (&'static str, &'static str) {
    match delimiter {
        Delimiter::Parenthesis => ("(", ")"),
        Delimiter::Bracket => ("[", "]"),
        Delimiter::Brace => ("{", "}"),
        Delimiter::None => ("none", "none"),
    }
}

fn show_literal(lit: &Lit, out: &mut String) -> Result<(), AllocError> {
    match lit {
        Lit::Str { value, suffix } => write!(out, "s:{value:?}{suffix}"),
        Lit::Int { digits } => write!(out, "d:{digits}"),
        Lit::Other { text } => write!(out, "other:{text}"),
    }
}

/// The tokens of a tree, down to so many groups.
pub(crate) fn show_tree(tree: &TokenTree, depth: u8, out: &mut String) -> Result<(), AllocError> {
    if !out.is_empty() {
        out.push(' ')?;
    }
    if tree.span() != PLACE {
        out.push('!')?;
    }
    match tree {
        TokenTree::Ident(name) => {
            out.push_str("w:")?;
            out.push_str(&name.text)
        }
        TokenTree::Punct(punct) => {
            out.push_str("p:")?;
            out.push(punct.ch)?;
            out.push_str(if punct.spacing == Spacing::Joint {
                "+"
            } else {
                ""
            })
        }
        TokenTree::Literal(literal) => show_literal(&literal.lit, out),
        TokenTree::Group(group) => {
            let (before, after) = brackets(group.delimiter);
            out.push_str(before)?;
            if depth > 0 {
                for inner in group.stream.trees() {
                    show_tree(inner, depth - 1, out)?;
                }
            }
            out.push(' ')?;
            out.push_str(after)
        }
    }
}

fn show(alloc: Global, stream: &TokenStream) -> Result<String, AllocError> {
    let mut out = String::new(alloc);
    for tree in stream.trees() {
        show_tree(tree, 9, &mut out)?;
    }
    Ok(out)
}

// The tokens of a text, or its fault.
fn shown(alloc: Global, text: &str) -> Result<String, AllocError> {
    match lex(alloc, text, PLACE) {
        Ok(stream) => show(alloc, &stream),
        Err(LexError::Bad { place }) => format!(in alloc; "bad {place}"),
        Err(LexError::Memory) => Err(AllocError),
    }
}

/// The text of a text's tokens, or its fault.
pub(crate) fn printed(alloc: Global, text: &str) -> Result<String, AllocError> {
    match lex(alloc, text, PLACE) {
        Ok(stream) => stream.text(alloc),
        Err(_) => shown(alloc, text),
    }
}

/// The tokens of a text, and behind `AGAIN` those of their text where it has others.
pub(crate) fn tokens_of(alloc: Global, text: &str) -> Result<String, AllocError> {
    let mut first = shown(alloc, text)?;
    if lex(alloc, text, PLACE).is_ok() {
        let again = shown(alloc, &printed(alloc, text)?)?;
        if again != first {
            first.push_str(" AGAIN ")?;
            first.push_str(&again)?;
        }
    }
    Ok(first)
}

/// The value of a text that is one string literal.
pub(crate) fn literal_value(alloc: Global, text: &str) -> Result<Option<String>, AllocError> {
    let Ok(stream) = lex(alloc, text, PLACE) else {
        return Ok(None);
    };
    match stream.trees() {
        [TokenTree::Literal(literal)] => match &literal.lit {
            Lit::Str { value, .. } => Ok(Some(value.clone()?)),
            _ => Ok(None),
        },
        _ => Ok(None),
    }
}
