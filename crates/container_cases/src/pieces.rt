//! Pieces of emitted items: each line of standard input names one, and its tokens are printed as a text.
//!
//! A line is a piece and its types, with ` | ` between. Types stand in Polish notation: `bool`, `text`, `any`, `unit`, `int:u8`,
//! `native:date`, `item:NAME` and `boxed:NAME` hold none, `option`, `box`, `vec`, `set` and `array:4` one, `map` two, and
//! `tuple:3` as many as it says. The pieces are
//!
//! - `type`;
//! - `field IDENTIFIER NAME PLACE MANNER`, where a manner is `plain`, `whole`, `defaulted`, `held`, or `option`, `vec`, `set`
//!   or `map` for what is left out where it is empty;
//! - `rest IDENTIFIER`;
//! - `unit IDENTIFIER NAME`, `newtype IDENTIFIER NAME` and `tuple IDENTIFIER NAME`, variants;
//! - `struct NAME METAS`, a tuple struct, and `enum NAME METAS`, whose variants are unit variants with the words behind ` | ` for
//!   their names. Metas are `internal:TAG`, `adjacent:TAG:CONTENT`, `untagged`, `transparent`, `closed` and `try`, which is told of the
//!   text `T`.
mod items;
mod types;

use crate::pieces::items::{enum_of, struct_of, variant_of};
use crate::pieces::types::type_of;
use emit_trees::{Empty, Manner, named_field, rest_field};
use rust_syntax::ToTokens;
use std::alloc::{AllocError, Global};
use syntax_trees::Field;
use token_trees::TokenStream;

// The tokens of a tree, as a text.
fn printed<T: ToTokens + Drop>(
    alloc: Global,
    tree: Option<T>,
) -> Result<Option<String>, AllocError> {
    let Some(tree) = tree else {
        return Ok(None);
    };
    let mut tokens = TokenStream::new(alloc);
    tree.to_tokens(&mut tokens)?;
    Ok(Some(tokens.text(alloc)?))
}

fn manner_of(word: &str) -> Option<Manner> {
    match word {
        "plain" => Some(Manner::Plain),
        "whole" => Some(Manner::Whole),
        "defaulted" => Some(Manner::Defaulted),
        "held" => Some(Manner::Held),
        "option" => Some(Manner::Skipped(Empty::Option)),
        "vec" => Some(Manner::Skipped(Empty::Vec)),
        "set" => Some(Manner::Skipped(Empty::Set)),
        "map" => Some(Manner::Skipped(Empty::Map)),
        _ => None,
    }
}

fn field_of(
    alloc: Global,
    names: (&str, &str),
    place: &str,
    manner: &str,
    types: &[&str],
) -> Result<Option<Field>, AllocError> {
    let (identifier, name) = names;
    let (Ok(place), Some(manner)) = (place.parse::<usize>(), manner_of(manner)) else {
        return Ok(None);
    };
    match type_of(alloc, types)? {
        Some(inner) => Ok(Some(named_field(alloc, identifier, name, place, manner, inner)?)),
        None => Ok(None),
    }
}

fn rest_of(alloc: Global, identifier: &str, types: &[&str]) -> Result<Option<Field>, AllocError> {
    match type_of(alloc, types)? {
        Some(value) => Ok(Some(rest_field(alloc, identifier, value)?)),
        None => Ok(None),
    }
}

// The words between single spaces.
fn words_of(alloc: Global, text: &str) -> Result<Vec<&str>, AllocError> {
    let mut words = Vec::new(alloc);
    for word in text.split(' ') {
        if !word.is_empty() {
            words.push(word)?;
        }
    }
    Ok(words)
}

fn printed_of(
    alloc: Global,
    words: &[&str],
    behind: &[&str],
) -> Result<Option<String>, AllocError> {
    match words {
        ["type"] => printed(alloc, type_of(alloc, behind)?),
        ["field", identifier, name, place, manner] => printed(
            alloc,
            field_of(alloc, (identifier, name), place, manner, behind)?,
        ),
        ["rest", identifier] => printed(alloc, rest_of(alloc, identifier, behind)?),
        ["struct", name, metas @ ..] => printed(alloc, struct_of(alloc, name, metas, behind)?),
        ["enum", name, metas @ ..] => { printed(alloc, Some(enum_of(alloc, name, metas, behind)?)) }
        [kind, identifier, name] => printed(
            alloc,
            variant_of(alloc, kind, (identifier, name), behind)?,
        ),
        _ => Ok(None),
    }
}

/// The piece that a line names, printed; none where it names no piece.
pub(crate) fn piece_of(alloc: Global, line: &str) -> Result<Option<String>, AllocError> {
    let (piece, types) = match line.split_once(" | ") {
        Some((piece, types)) => (piece, types),
        None => (line, ""),
    };
    let words = words_of(alloc, piece)?;
    let behind = words_of(alloc, types)?;
    printed_of(alloc, &words, &behind)
}
