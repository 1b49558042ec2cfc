//! Types in Polish notation.
use schema_defs::Format;
use std::alloc::{AllocError, Global};
use syntax_trees::Ty;
use type_trees::{
    IntegerName, any_ty, array_ty, boolean_ty, boxed_ty, integer_ty, map_ty, native_ty, option_ty,
    set_ty, text_ty, tuple_ty, unit_ty, used_ty, vec_ty,
};

/// A word before its first `:`, and what stands behind it.
pub(crate) fn split(word: &str) -> (&str, &str) {
    match word.split_once(':') {
        Some((kind, detail)) => (kind, detail),
        None => (word, ""),
    }
}

fn integer_name(name: &str) -> Option<IntegerName> {
    match name {
        "i8" => Some(IntegerName::I8),
        "u8" => Some(IntegerName::U8),
        "i16" => Some(IntegerName::I16),
        "u16" => Some(IntegerName::U16),
        "i32" => Some(IntegerName::I32),
        "u32" => Some(IntegerName::U32),
        "i64" => Some(IntegerName::I64),
        "u64" => Some(IntegerName::U64),
        "NonZeroU8" => Some(IntegerName::NonZeroU8),
        "NonZeroU16" => Some(IntegerName::NonZeroU16),
        "NonZeroU32" => Some(IntegerName::NonZeroU32),
        "NonZeroU64" => Some(IntegerName::NonZeroU64),
        _ => None,
    }
}

fn format_of(name: &str) -> Option<Format> {
    match name {
        "uuid" => Some(Format::Uuid),
        "date" => Some(Format::Date),
        "date-time" => Some(Format::DateTime),
        "ip" => Some(Format::Ip),
        "ipv4" => Some(Format::Ipv4),
        "ipv6" => Some(Format::Ipv6),
        _ => None,
    }
}

// A type that holds no other.
fn plain_of(alloc: Global, kind: &str, detail: &str) -> Result<Option<Ty>, AllocError> {
    match kind {
        "bool" => Ok(Some(boolean_ty(alloc)?)),
        "text" => Ok(Some(text_ty(alloc)?)),
        "any" => Ok(Some(any_ty(alloc)?)),
        "unit" => Ok(Some(unit_ty(alloc))),
        "item" => Ok(Some(used_ty(alloc, false, detail)?)),
        "boxed" => Ok(Some(used_ty(alloc, true, detail)?)),
        "int" => match integer_name(detail) {
            Some(name) => Ok(Some(integer_ty(alloc, name)?)),
            None => Ok(None),
        },
        "native" => match format_of(detail) {
            Some(format) => Ok(Some(native_ty(alloc, format)?)),
            None => Ok(None),
        },
        _ => Ok(None),
    }
}

// A type that holds one other.
fn holder_of(alloc: Global, kind: &str, detail: &str, inner: Ty) -> Result<Option<Ty>, AllocError> {
    match kind {
        "option" => Ok(Some(option_ty(alloc, inner)?)),
        "box" => Ok(Some(boxed_ty(alloc, inner)?)),
        "vec" => Ok(Some(vec_ty(alloc, inner)?)),
        "set" => Ok(Some(set_ty(alloc, inner)?)),
        "array" => match detail.parse::<u32>() {
            Ok(len) => Ok(Some(array_ty(alloc, inner, len)?)),
            Err(_) => Ok(None),
        },
        _ => Ok(None),
    }
}

// The first types of those that wait, which lie last.
fn tuple_of(alloc: Global, detail: &str, waiting: &mut Vec<Ty>) -> Result<Option<Ty>, AllocError> {
    let Ok(len) = detail.parse::<u32>() else {
        return Ok(None);
    };
    let mut types = Vec::new(alloc);
    for _ in 0..len {
        let Some(first) = waiting.pop() else {
            return Ok(None);
        };
        types.push(first)?;
    }
    Ok(Some(tuple_ty(types)))
}

fn map_of(alloc: Global, waiting: &mut Vec<Ty>) -> Result<Option<Ty>, AllocError> {
    match (waiting.pop(), waiting.pop()) {
        (Some(key), Some(value)) => Ok(Some(map_ty(alloc, key, value)?)),
        _ => Ok(None),
    }
}

// The type that the word begins, of those that wait.
fn type_begun(alloc: Global, word: &str, waiting: &mut Vec<Ty>) -> Result<Option<Ty>, AllocError> {
    let (kind, detail) = split(word);
    match kind {
        "map" => map_of(alloc, waiting),
        "tuple" => tuple_of(alloc, detail, waiting),
        "option" | "box" | "vec" | "set" | "array" => match waiting.pop() {
            Some(inner) => holder_of(alloc, kind, detail, inner),
            None => Ok(None),
        },
        _ => plain_of(alloc, kind, detail),
    }
}

/// The types that the words tell, in order; none where they tell no types.
pub(crate) fn types_of(alloc: Global, words: &[&str]) -> Result<Option<Vec<Ty>>, AllocError> {
    let mut waiting = Vec::new(alloc);
    for word in words.iter().rev() {
        match type_begun(alloc, word, &mut waiting)? {
            Some(begun) => waiting.push(begun)?,
            None => return Ok(None),
        }
    }
    waiting.reverse();
    Ok(Some(waiting))
}

/// The one type that the words tell.
pub(crate) fn type_of(alloc: Global, words: &[&str]) -> Result<Option<Ty>, AllocError> {
    let Some(mut types) = types_of(alloc, words)? else {
        return Ok(None);
    };
    let last = types.pop();
    if types.is_empty() { Ok(last) } else { Ok(None) }
}
