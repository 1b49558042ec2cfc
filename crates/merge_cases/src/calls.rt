//! The calls, and what they answer as text.
use crate::show::push_schema;
use case_words::{fault_text, push_fault};
use merge_parts::{MergeKind, Way};
use schema_merge::{Merged, PlacedNote, Roughly, merge_all, subtract, try_merge_with_subschemas};
use schema_tree::{Document, Fault, Schema, SchemaObject};
use serde_json::Value;
use std::alloc::{AllocError, Global};
use std::fmt::Write;

/// What is asked of a document.
#[derive(Clone, Copy)]
pub enum Call {
    Merge,
    Subschemas,
    Subtract,
    Roughly,
}

/// The answer of the call as text.
pub fn answer(alloc: Global, call: Call, depth: u32, value: &Value) -> Result<String, AllocError> {
    match Document::read(alloc, value) {
        Ok(document) => match document.root() {
            Schema::Object(object) => asked(alloc, call, depth, &document, object),
            Schema::Bool(_) => String::from_str(alloc, "no case"),
        },
        Err(fault) => fault_text(alloc, &fault),
    }
}

fn asked(
    alloc: Global,
    call: Call,
    depth: u32,
    document: &Document,
    object: &SchemaObject,
) -> Result<String, AllocError> {
    match call {
        Call::Merge => merged(alloc, depth, document, object),
        Call::Subschemas => with_subschemas(alloc, depth, document, object),
        Call::Subtract => subtracted(alloc, depth, document, object),
        Call::Roughly => String::from_str(alloc, likeness(members_of(object))),
    }
}

// ---- calls

fn members_of(object: &SchemaObject) -> &[Schema] {
    match &object.subschemas {
        Some(subschemas) => match &subschemas.all_of {
            Some(members) => members.as_slice(),
            None => &[],
        },
        None => &[],
    }
}

fn merged(
    alloc: Global,
    depth: u32,
    document: &Document,
    object: &SchemaObject,
) -> Result<String, AllocError> {
    let found = merge_all(alloc, document.parts(), depth, members_of(object));
    text_of(alloc, found)
}

fn with_subschemas(
    alloc: Global,
    depth: u32,
    document: &Document,
    object: &SchemaObject,
) -> Result<String, AllocError> {
    let mut body = object.try_clone(alloc)?;
    body.subschemas = None;
    let found = try_merge_with_subschemas(
        alloc,
        document.parts(),
        depth,
        &body,
        object.subschemas.as_ref(),
    );
    text_of(alloc, found)
}

fn taken_away(object: &SchemaObject) -> Option<&Schema> {
    match &object.subschemas {
        Some(subschemas) => match &subschemas.not {
            Some(schema) => Some(schema),
            None => None,
        },
        None => None,
    }
}

fn subtracted(
    alloc: Global,
    depth: u32,
    document: &Document,
    object: &SchemaObject,
) -> Result<String, AllocError> {
    match (members_of(object).first(), taken_away(object)) {
        (Some(from), Some(less)) => {
            let found = subtract(alloc, document.parts(), depth, from, less);
            text_of(alloc, found)
        }
        _ => String::from_str(alloc, "no case"),
    }
}

fn likeness(members: &[Schema]) -> &'static str {
    match members {
        [first, second, ..] => {
            if first.roughly(second) {
                "alike"
            } else {
                "other"
            }
        }
        _ => "no case",
    }
}

// ---- answers

fn text_of(alloc: Global, found: Result<Merged, Fault>) -> Result<String, AllocError> {
    let mut text = String::new(alloc);
    match found {
        Ok(merged) => push_merged(alloc, &mut text, &merged)?,
        Err(fault) => push_refusal(alloc, &mut text, &fault)?,
    }
    Ok(text)
}

fn push_merged(alloc: Global, out: &mut String, merged: &Merged) -> Result<(), AllocError> {
    match &merged.schema {
        Some(schema) => push_schema(alloc, out, schema)?,
        None => out.push_str("never")?,
    }
    for note in &merged.notes {
        push_note(alloc, out, note)?;
    }
    Ok(())
}

fn push_note(alloc: Global, out: &mut String, note: &PlacedNote) -> Result<(), AllocError> {
    let way = way_word(note.way);
    let kind = kind_word(note.kind);
    let path = note.path.text(alloc)?;
    write!(out, "; {way} {kind} {path}")
}

fn way_word(way: Way) -> &'static str {
    match way {
        Way::Narrowed => "narrowed",
        Way::Widened => "widened",
    }
}

fn kind_word(kind: MergeKind) -> &'static str {
    match kind {
        MergeKind::Integer => "integer",
        MergeKind::Names => "names",
        MergeKind::Reference => "reference",
        MergeKind::Formats => "formats",
        MergeKind::Clash => "clash",
        MergeKind::Members => "members",
        MergeKind::Subtract => "subtract",
        MergeKind::Absent => "absent",
    }
}

fn push_refusal(alloc: Global, out: &mut String, fault: &Fault) -> Result<(), AllocError> {
    match fault {
        Fault::Memory => out.push_str("Memory"),
        _ => push_fault(alloc, out, fault),
    }
}
