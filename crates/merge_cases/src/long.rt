//! Documents that are too long to be written out: chains of objects, which are merged in time that grows in step with their number, and definitions that lead deep.
use crate::calls::{Call, answer};
use schema_merge::{Merged, merge_all};
use schema_tree::{Document, Fault, Schema, SchemaObject};
use serde_json::Value;
use std::alloc::{AllocError, Global};
use std::fmt::Write;

/// What is made so long.
#[derive(Clone, Copy)]
pub enum Long {
    /// Objects in `allOf`, each with a required property of its own.
    Chain,
    /// Definitions, each with an `allOf` that refers to the next.
    Nested,
}

/// What the merge of so many is, as text.
pub fn long_answer(
    alloc: Global,
    long: Long,
    depth: u32,
    count: u32,
) -> Result<String, AllocError> {
    let text = match long {
        Long::Chain => chain_text(alloc, count)?,
        Long::Nested => nested_text(alloc, count)?,
    };
    match Value::from_str(alloc, &text) {
        Ok(value) => merged(alloc, long, depth, &value),
        Err(_) => String::from_str(alloc, "no JSON"),
    }
}

fn merged(alloc: Global, long: Long, depth: u32, value: &Value) -> Result<String, AllocError> {
    match long {
        Long::Chain => merged_chain(alloc, depth, value),
        Long::Nested => answer(alloc, Call::Merge, depth, value),
    }
}

// ---- documents

fn chain_text(alloc: Global, count: u32) -> Result<String, AllocError> {
    let mut text = String::from_str(alloc, "{\"allOf\":[true")?;
    for place in 0..count {
        write!(
            text,
            ",{{\"properties\":{{\"p{place}\":{{}}}},\"required\":[\"p{place}\"]}}"
        )?;
    }
    text.push_str("]}")?;
    Ok(text)
}

fn nested_text(alloc: Global, count: u32) -> Result<String, AllocError> {
    let mut text = String::from_str(alloc, "{\"allOf\":[{\"$ref\":\"#/definitions/d0\"}")?;
    text.push_str(",{\"maxProperties\":9}],\"definitions\":{")?;
    for place in 0..count {
        let next = u64::from(place) + 1;
        write!(text, "\"d{place}\":{{\"allOf\":[{{\"minProperties\":1}}")?;
        write!(text, ",{{\"$ref\":\"#/definitions/d{next}\"}}]}},")?;
    }
    write!(text, "\"d{count}\":{{\"type\":\"object\"}}}}}}")?;
    Ok(text)
}

// ---- a chain

fn merged_chain(alloc: Global, depth: u32, value: &Value) -> Result<String, AllocError> {
    match Document::read(alloc, value) {
        Ok(document) => match document.root() {
            Schema::Object(object) => counted_chain(alloc, depth, &document, object),
            Schema::Bool(_) => String::from_str(alloc, "no case"),
        },
        Err(_) => String::from_str(alloc, "no document"),
    }
}

fn counted_chain(
    alloc: Global,
    depth: u32,
    document: &Document,
    object: &SchemaObject,
) -> Result<String, AllocError> {
    match &object.subschemas {
        Some(subschemas) => match &subschemas.all_of {
            Some(members) => {
                let found = merge_all(alloc, document.parts(), depth, members.as_slice());
                counted(alloc, &found)
            }
            None => String::from_str(alloc, "no case"),
        },
        None => String::from_str(alloc, "no case"),
    }
}

fn counted(alloc: Global, found: &Result<Merged, Fault>) -> Result<String, AllocError> {
    match found {
        Ok(merged) => match &merged.schema {
            Some(Schema::Object(object)) => object_counted(alloc, object),
            _ => String::from_str(alloc, "no object"),
        },
        Err(_) => String::from_str(alloc, "refused"),
    }
}

fn object_counted(alloc: Global, object: &SchemaObject) -> Result<String, AllocError> {
    match &object.object {
        Some(members) => {
            let properties = members.properties.len();
            let required = members.required.len();
            let mut text = String::new(alloc);
            write!(text, "{properties} properties, {required} required")?;
            Ok(text)
        }
        None => String::from_str(alloc, "no members"),
    }
}
