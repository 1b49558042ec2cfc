//! Parts of the tables, as the cases write them. What isn't there is empty.
use serde_json::Value;
use std::alloc::{AllocError, Global};

/// The text of a member.
pub fn text_at(alloc: Global, value: &Value, name: &str) -> Result<String, AllocError> {
    match value.get(name) {
        Some(Value::String(text)) => text.clone(),
        _ => String::from_str(alloc, ""),
    }
}

/// The items of a member.
pub fn items_at<'a>(value: &'a Value, name: &str) -> &'a [Value] {
    match value.get(name) {
        Some(found) => items_of(found),
        None => &[],
    }
}

/// The items of a list.
pub fn items_of(value: &Value) -> &[Value] {
    match value {
        Value::Array(items) => items,
        _ => &[],
    }
}

/// Whether a member is true.
pub fn is_set(value: &Value, name: &str) -> bool {
    match value.get(name) {
        Some(Value::Bool(set)) => *set,
        _ => false,
    }
}

/// A number of a member that holds a u32.
pub fn number_at(value: &Value, name: &str) -> Option<u32> {
    match value.get(name) {
        Some(found) => match found.as_u64() {
            Some(number) => u32::try_from(number).ok(),
            None => None,
        },
        None => None,
    }
}

/// Each of the texts.
pub fn texts_of(alloc: Global, values: &[Value]) -> Result<Vec<String>, AllocError> {
    let mut texts = Vec::new(alloc);
    for value in values {
        if let Value::String(text) = value {
            texts.push(text.clone()?)?;
        }
    }
    Ok(texts)
}

/// A copy of each.
pub fn copies(alloc: Global, values: &[Value]) -> Result<Vec<Value>, AllocError> {
    let mut copied = Vec::new(alloc);
    for value in values {
        copied.push(value.clone()?)?;
    }
    Ok(copied)
}
