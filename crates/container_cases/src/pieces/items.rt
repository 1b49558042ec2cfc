//! Variants and items.
use crate::pieces::types::{split, type_of, types_of};
use attr_parts::TagType;
use emit_trees::{
    Carried, enum_item, item_metas, newtype_fields, struct_item, tuple_fields, variant,
};
use std::alloc::{AllocError, Global};
use syntax_trees::{DeriveInput, Fields, Variant};

/// What an item carries, as words tell it.
#[derive(Drop)]
struct Told {
    tag: TagType,
    transparent: bool,
    try_from: Option<String>,
    closed: bool,
}

fn tag_of(alloc: Global, word: &str) -> Result<TagType, AllocError> {
    let (kind, detail) = split(word);
    let (tag, content) = split(detail);
    match kind {
        "internal" => Ok(TagType::Internal {
            tag: String::from_str(alloc, tag)?,
        }),
        "adjacent" => Ok(TagType::Adjacent {
            tag: String::from_str(alloc, tag)?,
            content: String::from_str(alloc, content)?,
        }),
        "untagged" => Ok(TagType::None),
        _ => Ok(TagType::External),
    }
}

fn told_of(alloc: Global, words: &[&str]) -> Result<Told, AllocError> {
    let mut told = Told {
        tag: TagType::External,
        transparent: false,
        try_from: None,
        closed: false,
    };
    for word in words {
        match *word {
            "transparent" => told.transparent = true,
            "closed" => told.closed = true,
            "try" => told.try_from = Some(String::from_str(alloc, "T")?),
            tag => told.tag = tag_of(alloc, tag)?,
        }
    }
    Ok(told)
}

fn metas_of(alloc: Global, words: &[&str]) -> Result<Vec<Carried>, AllocError> {
    let Told {
        tag,
        transparent,
        try_from,
        closed,
    } = told_of(alloc, words)?;
    item_metas(alloc, &tag, transparent, try_from, closed)
}

/// A variant of that kind.
pub(crate) fn variant_of(
    alloc: Global,
    kind: &str,
    names: (&str, &str),
    types: &[&str],
) -> Result<Option<Variant>, AllocError> {
    let (identifier, name) = names;
    let fields = match kind {
        "unit" => Fields::Unit,
        "newtype" => match type_of(alloc, types)? {
            Some(inner) => newtype_fields(alloc, inner)?,
            None => return Ok(None),
        },
        _ => match types_of(alloc, types)? {
            Some(types) => tuple_fields(alloc, types)?,
            None => return Ok(None),
        },
    };
    Ok(Some(variant(alloc, identifier, name, fields)?))
}

/// A tuple struct.
pub(crate) fn struct_of(
    alloc: Global,
    name: &str,
    metas: &[&str],
    types: &[&str],
) -> Result<Option<DeriveInput>, AllocError> {
    let Some(types) = types_of(alloc, types)? else {
        return Ok(None);
    };
    let metas = metas_of(alloc, metas)?;
    let fields = tuple_fields(alloc, types)?;
    Ok(Some(struct_item(alloc, name, metas, fields)?))
}

/// An enum of unit variants.
pub(crate) fn enum_of(
    alloc: Global,
    name: &str,
    metas: &[&str],
    names: &[&str],
) -> Result<DeriveInput, AllocError> {
    let mut variants = Vec::new(alloc);
    for name in names {
        variants.push(variant(alloc, name, name, Fields::Unit)?)?;
    }
    let metas = metas_of(alloc, metas)?;
    enum_item(alloc, name, metas, variants)
}
