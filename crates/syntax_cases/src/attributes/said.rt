//! What is printed of a line.
use crate::attributes::kind::kind_of;
use attr_parts::{
    ALIAS, BORROW, BOUND, CONTENT, CRATE, DEFAULT, DENY_UNKNOWN_FIELDS, DESERIALIZE,
    DESERIALIZE_WITH, Diagnostic, EXPECTING, FIELD_IDENTIFIER, FLATTEN, FROM, GETTER, INTO,
    NON_EXHAUSTIVE, Name, OTHER, ParseError, REMOTE, RENAME, RENAME_ALL, RENAME_ALL_FIELDS, REPR,
    SERDE, SERIALIZE, SERIALIZE_WITH, SKIP, SKIP_DESERIALIZING, SKIP_SERIALIZING,
    SKIP_SERIALIZING_IF, TAG, TRANSPARENT, TRY_FROM, UNTAGGED, VARIANT_IDENTIFIER, WITH,
};
use std::alloc::{AllocError, Global};
use std::fmt::Write;
use token_trees::{Span, Symbol};

const FIRST_SYMBOLS: [Symbol; 18] = [
    ALIAS,
    BORROW,
    BOUND,
    CONTENT,
    CRATE,
    DEFAULT,
    DENY_UNKNOWN_FIELDS,
    DESERIALIZE,
    DESERIALIZE_WITH,
    EXPECTING,
    FIELD_IDENTIFIER,
    FLATTEN,
    FROM,
    GETTER,
    INTO,
    NON_EXHAUSTIVE,
    OTHER,
    REMOTE,
];

const LAST_SYMBOLS: [Symbol; 17] = [
    RENAME,
    RENAME_ALL,
    RENAME_ALL_FIELDS,
    REPR,
    SERDE,
    SERIALIZE,
    SERIALIZE_WITH,
    SKIP,
    SKIP_DESERIALIZING,
    SKIP_SERIALIZING,
    SKIP_SERIALIZING_IF,
    TAG,
    TRANSPARENT,
    TRY_FROM,
    UNTAGGED,
    VARIANT_IDENTIFIER,
    WITH,
];

fn push_symbols(symbols: &[Symbol], out: &mut String) -> Result<(), AllocError> {
    for symbol in symbols {
        if !out.is_empty() {
            out.push(' ')?;
        }
        write!(out, "{symbol}")?;
    }
    Ok(())
}

fn all_symbols(alloc: Global) -> Result<String, AllocError> {
    let mut out = String::new(alloc);
    push_symbols(&FIRST_SYMBOLS, &mut out)?;
    push_symbols(&LAST_SYMBOLS, &mut out)?;
    Ok(out)
}

fn said_of_name(alloc: Global, text: &str) -> Result<String, AllocError> {
    let name = Name {
        value: String::from_str(alloc, text)?,
        span: Span::call_site(),
    };
    format!(in alloc; "{name}")
}

fn said_of_kind(alloc: Global, name: &str, texts: &str) -> Result<Option<String>, AllocError> {
    match kind_of(alloc, name, texts)? {
        Some(kind) => {
            let diagnostic = Diagnostic {
                kind,
                span: Span::call_site(),
            };
            Ok(Some(format!(in alloc; "{diagnostic}")?))
        }
        None => Ok(None),
    }
}

/// What a line asks for; none where it names no kind.
pub(crate) fn said_of(alloc: Global, line: &str) -> Result<Option<String>, AllocError> {
    let (name, texts) = match line.split_once(" | ") {
        Some((name, texts)) => (name, texts),
        None => (line, ""),
    };
    match name {
        "name" => Ok(Some(said_of_name(alloc, texts)?)),
        "no rule" => {
            let error = ParseError { unknown: texts };
            Ok(Some(format!(in alloc; "{error}")?))
        }
        "symbols" => Ok(Some(all_symbols(alloc)?)),
        _ => said_of_kind(alloc, name, texts),
    }
}
