//! The plain keywords of a document's root as they were read, its references, and its copies.
use crate::schema::document;
use schema_guards::references_of;
use schema_tree::{
    ArrayValidation, InstanceType, Location, NumberValidation, ObjectValidation, Schema,
    SchemaObject, StringValidation, Types, Walk,
};
use serde_json::Value;
use std::alloc::{AllocError, Global};
use std::fmt::Write;

/// The root's plain keywords, each with what it holds.
pub(crate) fn keywords_text(alloc: Global, text: &str) -> Result<String, AllocError> {
    let Some(document) = document(alloc, text) else {
        return String::from_str(alloc, "no document");
    };
    let mut out = String::from_str(alloc, "keywords")?;
    if let Schema::Object(object) = document.root() {
        push_keywords(&mut out, object)?;
    }
    Ok(out)
}

fn push_keywords(out: &mut String, object: &SchemaObject) -> Result<(), AllocError> {
    push_text(out, "$ref", &object.reference)?;
    push_text(out, "title", &object.title)?;
    push_text(out, "description", &object.description)?;
    push_value(out, "default", &object.default)?;
    push_value(out, "const", &object.const_value)?;
    push_text(out, "format", &object.format)?;
    if let Some(types) = &object.types {
        push_types(out, types)?;
    }
    if let Some(values) = &object.enum_values {
        let count = values.len();
        write!(out, "; enum {count}")?;
    }
    push_parts(out, object)
}

fn push_parts(out: &mut String, object: &SchemaObject) -> Result<(), AllocError> {
    if let Some(number) = &object.number {
        push_number(out, number)?;
    }
    if let Some(string) = &object.string {
        push_string(out, string)?;
    }
    if let Some(array) = &object.array {
        push_array(out, array)?;
    }
    if let Some(members) = &object.object {
        push_members(out, members)?;
    }
    if object.subschemas.is_some() {
        out.push_str("; subschemas")?;
    }
    Ok(())
}

fn push_text(out: &mut String, key: &str, text: &Option<String>) -> Result<(), AllocError> {
    match text {
        Some(text) => {
            let text = text.as_str();
            write!(out, "; {key} {text}")
        }
        None => Ok(()),
    }
}

fn push_value(out: &mut String, key: &str, value: &Option<Value>) -> Result<(), AllocError> {
    match value {
        Some(value) => write!(out, "; {key} {value}"),
        None => Ok(()),
    }
}

fn push_size(out: &mut String, key: &str, size: Option<u32>) -> Result<(), AllocError> {
    match size {
        Some(size) => write!(out, "; {key} {size}"),
        None => Ok(()),
    }
}

fn push_bound(out: &mut String, key: &str, bound: Option<i128>) -> Result<(), AllocError> {
    match bound {
        Some(bound) => write!(out, "; {key} {bound}"),
        None => Ok(()),
    }
}

fn push_types(out: &mut String, types: &Types) -> Result<(), AllocError> {
    out.push_str("; type")?;
    match types {
        Types::One(kind) => push_type(out, *kind),
        Types::Many(kinds) => {
            for kind in kinds {
                push_type(out, *kind)?;
            }
            Ok(())
        }
    }
}

fn push_type(out: &mut String, kind: InstanceType) -> Result<(), AllocError> {
    out.push(' ')?;
    out.push_str(type_word(kind))
}

fn type_word(kind: InstanceType) -> &'static str {
    match kind {
        InstanceType::Null => "null",
        InstanceType::Boolean => "boolean",
        InstanceType::Object => "object",
        InstanceType::Array => "array",
        InstanceType::Number => "number",
        InstanceType::Text => "string",
        InstanceType::Integer => "integer",
    }
}

fn push_number(out: &mut String, number: &NumberValidation) -> Result<(), AllocError> {
    push_bound(out, "multipleOf", number.multiple_of.map(i128::from))?;
    push_bound(out, "maximum", number.maximum)?;
    push_bound(out, "exclusiveMaximum", number.exclusive_maximum)?;
    push_bound(out, "minimum", number.minimum)?;
    push_bound(out, "exclusiveMinimum", number.exclusive_minimum)
}

fn push_string(out: &mut String, string: &StringValidation) -> Result<(), AllocError> {
    push_size(out, "maxLength", string.max_length)?;
    push_size(out, "minLength", string.min_length)?;
    for pattern in &string.patterns {
        let pattern = pattern.as_str();
        write!(out, "; pattern {pattern}")?;
    }
    Ok(())
}

fn push_array(out: &mut String, array: &ArrayValidation) -> Result<(), AllocError> {
    push_size(out, "maxItems", array.max_items)?;
    push_size(out, "minItems", array.min_items)?;
    match array.unique_items {
        Some(unique) => write!(out, "; uniqueItems {unique}"),
        None => Ok(()),
    }
}

fn push_members(out: &mut String, members: &ObjectValidation) -> Result<(), AllocError> {
    push_size(out, "maxProperties", members.max_properties)?;
    push_size(out, "minProperties", members.min_properties)?;
    for name in members.required.iter() {
        let name = name.as_str();
        write!(out, "; required {name}")?;
    }
    Ok(())
}

/// The references that judge the same value as the root, in their order.
pub(crate) fn references_text(alloc: Global, text: &str) -> Result<String, AllocError> {
    let Some(document) = document(alloc, text) else {
        return String::from_str(alloc, "no document");
    };
    let found = references_of(alloc, document.root())?;
    let mut out = String::from_str(alloc, "references")?;
    for reference in &found {
        out.push_str("; ")?;
        out.push_str(*reference)?;
    }
    Ok(out)
}

/// Whether a copy of the root is the same: as it is, then with a walk, then without its title.
pub(crate) fn copy_text(alloc: Global, text: &str) -> Result<String, AllocError> {
    let Some(document) = document(alloc, text) else {
        return String::from_str(alloc, "no document");
    };
    let mut copy = document.root().try_clone(alloc)?;
    let plain = alike(document.root(), &copy);
    add_walk(alloc, &mut copy)?;
    let walked = alike(document.root(), &copy);
    take_title(&mut copy);
    let untitled = alike(document.root(), &copy);
    format!(in alloc; "{plain}, with a walk {walked}, without a title {untitled}")
}

fn alike(one: &Schema, other: &Schema) -> &'static str {
    if one.same(other) { "same" } else { "other" }
}

fn add_walk(alloc: Global, schema: &mut Schema) -> Result<(), AllocError> {
    if let Schema::Object(object) = schema {
        let mut locations = Vec::new(alloc);
        locations.push(Location::root(alloc))?;
        object.walk = Some(Walk { locations });
    }
    Ok(())
}

fn take_title(schema: &mut Schema) {
    if let Schema::Object(object) = schema {
        object.title = None;
    }
}
