//! Schemas as JSON, their keywords in one order.
use schema_tree::{
    ArrayValidation, InstanceType, Items, NumberValidation, ObjectValidation, Schema, SchemaObject,
    StringValidation, Subschemas, Types,
};
use serde_json::Value;
use std::alloc::{AllocError, Global};
use std::collections::{BTreeMap, BTreeSet};
use std::fmt::Write;

// ---- texts and keys

fn push_text(alloc: Global, out: &mut String, text: &str) -> Result<(), AllocError> {
    let value = Value::String(String::from_str(alloc, text)?);
    write!(out, "{value}")
}

// A comma stands before all but the first.
fn push_comma(out: &mut String) -> Result<(), AllocError> {
    if out.as_str().ends_with("{") || out.as_str().ends_with("[") {
        return Ok(());
    }
    out.push_str(",")
}

fn push_key(out: &mut String, key: &str) -> Result<(), AllocError> {
    push_comma(out)?;
    write!(out, "\"{key}\":")
}

fn push_texts(alloc: Global, out: &mut String, texts: &Vec<String>) -> Result<(), AllocError> {
    out.push_str("[")?;
    for text in texts {
        push_comma(out)?;
        push_text(alloc, out, text.as_str())?;
    }
    out.push_str("]")
}

// ---- leaves

fn type_word(kind: InstanceType) -> &'static str {
    match kind {
        InstanceType::Null => "null",
        InstanceType::Boolean => "boolean",
        InstanceType::Object => "object",
        InstanceType::Array => "array",
        InstanceType::Number => "number",
        InstanceType::Text => "string",
        InstanceType::Integer => "integer",
    }
}

fn push_types(out: &mut String, types: &Types) -> Result<(), AllocError> {
    push_key(out, "type")?;
    match types {
        Types::One(kind) => {
            let word = type_word(*kind);
            write!(out, "\"{word}\"")
        }
        Types::Many(kinds) => {
            out.push_str("[")?;
            for kind in kinds {
                push_comma(out)?;
                let word = type_word(*kind);
                write!(out, "\"{word}\"")?;
            }
            out.push_str("]")
        }
    }
}

fn push_bound(out: &mut String, key: &str, bound: Option<i128>) -> Result<(), AllocError> {
    match bound {
        Some(bound) => {
            push_key(out, key)?;
            write!(out, "{bound}")
        }
        None => Ok(()),
    }
}

fn push_number(out: &mut String, number: &NumberValidation) -> Result<(), AllocError> {
    push_bound(out, "multipleOf", number.multiple_of.map(i128::from))?;
    push_bound(out, "maximum", number.maximum)?;
    push_bound(out, "exclusiveMaximum", number.exclusive_maximum)?;
    push_bound(out, "minimum", number.minimum)?;
    push_bound(out, "exclusiveMinimum", number.exclusive_minimum)
}

fn push_size(out: &mut String, key: &str, size: Option<u32>) -> Result<(), AllocError> {
    match size {
        Some(size) => {
            push_key(out, key)?;
            write!(out, "{size}")
        }
        None => Ok(()),
    }
}

// A merged schema may have several patterns.
fn push_string(
    alloc: Global,
    out: &mut String,
    string: &StringValidation,
) -> Result<(), AllocError> {
    push_size(out, "maxLength", string.max_length)?;
    push_size(out, "minLength", string.min_length)?;
    if string.patterns.is_empty() {
        return Ok(());
    }
    push_key(out, "pattern")?;
    push_texts(alloc, out, &string.patterns)
}

fn push_values(out: &mut String, values: &Vec<Value>) -> Result<(), AllocError> {
    push_key(out, "enum")?;
    out.push_str("[")?;
    for value in values {
        push_comma(out)?;
        write!(out, "{value}")?;
    }
    out.push_str("]")
}

fn push_leaves(alloc: Global, out: &mut String, object: &SchemaObject) -> Result<(), AllocError> {
    if let Some(reference) = &object.reference {
        push_key(out, "$ref")?;
        push_text(alloc, out, reference.as_str())?;
    }
    if let Some(title) = &object.title {
        push_key(out, "title")?;
        push_text(alloc, out, title.as_str())?;
    }
    if let Some(default) = &object.default {
        push_key(out, "default")?;
        write!(out, "{default}")?;
    }
    if let Some(types) = &object.types {
        push_types(out, types)?;
    }
    if let Some(format) = &object.format {
        push_key(out, "format")?;
        push_text(alloc, out, format.as_str())?;
    }
    if let Some(value) = &object.const_value {
        push_key(out, "const")?;
        write!(out, "{value}")?;
    }
    if let Some(values) = &object.enum_values {
        push_values(out, values)?;
    }
    if let Some(number) = &object.number {
        push_number(out, number)?;
    }
    if let Some(string) = &object.string {
        push_string(alloc, out, string)?;
    }
    Ok(())
}

// ---- schemas

/// The schema as JSON; where several patterns are asked they stand as a list.
#[cycle(show)]
pub fn push_schema(alloc: Global, out: &mut String, schema: &Schema) -> Result<(), AllocError> {
    match schema {
        Schema::Bool(b) => out.push_str(if *b { "true" } else { "false" }),
        Schema::Object(object) => push_object(alloc, out, object),
    }
}

#[cycle(show)]
fn push_object(alloc: Global, out: &mut String, object: &SchemaObject) -> Result<(), AllocError> {
    out.push_str("{")?;
    push_leaves(alloc, out, object)?;
    if let Some(array) = &object.array {
        push_array(alloc, out, array)?;
    }
    if let Some(members) = &object.object {
        push_members(alloc, out, members)?;
    }
    if let Some(subschemas) = &object.subschemas {
        push_subschemas(alloc, out, subschemas)?;
    }
    out.push_str("}")
}

#[cycle(show)]
fn push_array(alloc: Global, out: &mut String, array: &ArrayValidation) -> Result<(), AllocError> {
    if let Some(items) = &array.items {
        push_items(alloc, out, items)?;
    }
    push_at(alloc, out, "additionalItems", &array.additional_items)?;
    push_at(alloc, out, "contains", &array.contains)?;
    push_size(out, "maxItems", array.max_items)?;
    push_size(out, "minItems", array.min_items)?;
    match array.unique_items {
        Some(unique) => {
            push_key(out, "uniqueItems")?;
            write!(out, "{unique}")
        }
        None => Ok(()),
    }
}

#[cycle(show)]
fn push_items(alloc: Global, out: &mut String, items: &Items) -> Result<(), AllocError> {
    match items {
        Items::One(schema) => {
            push_key(out, "items")?;
            push_schema(alloc, out, schema)
        }
        Items::Many(list) => push_list(alloc, out, "items", list),
    }
}

#[cycle(show)]
fn push_members(
    alloc: Global,
    out: &mut String,
    members: &ObjectValidation,
) -> Result<(), AllocError> {
    push_size(out, "maxProperties", members.max_properties)?;
    push_size(out, "minProperties", members.min_properties)?;
    push_required(alloc, out, &members.required)?;
    push_properties(alloc, out, "properties", &members.properties)?;
    push_properties(alloc, out, "patternProperties", &members.pattern_properties)?;
    push_at(
        alloc,
        out,
        "additionalProperties",
        &members.additional_properties,
    )?;
    push_at(alloc, out, "propertyNames", &members.property_names)
}

fn push_required(
    alloc: Global,
    out: &mut String,
    names: &BTreeSet<String>,
) -> Result<(), AllocError> {
    if names.is_empty() {
        return Ok(());
    }
    push_key(out, "required")?;
    out.push_str("[")?;
    for name in names.iter() {
        push_comma(out)?;
        push_text(alloc, out, name.as_str())?;
    }
    out.push_str("]")
}

#[cycle(show)]
fn push_properties(
    alloc: Global,
    out: &mut String,
    key: &str,
    properties: &BTreeMap<String, Schema>,
) -> Result<(), AllocError> {
    if properties.is_empty() {
        return Ok(());
    }
    push_key(out, key)?;
    out.push_str("{")?;
    for (name, schema) in properties.iter() {
        push_comma(out)?;
        push_text(alloc, out, name.as_str())?;
        out.push_str(":")?;
        push_schema(alloc, out, schema)?;
    }
    out.push_str("}")
}

#[cycle(show)]
fn push_subschemas(
    alloc: Global,
    out: &mut String,
    subschemas: &Subschemas,
) -> Result<(), AllocError> {
    if let Some(list) = &subschemas.all_of {
        push_list(alloc, out, "allOf", list)?;
    }
    if let Some(list) = &subschemas.any_of {
        push_list(alloc, out, "anyOf", list)?;
    }
    if let Some(list) = &subschemas.one_of {
        push_list(alloc, out, "oneOf", list)?;
    }
    push_at(alloc, out, "not", &subschemas.not)
}

#[cycle(show)]
fn push_list(
    alloc: Global,
    out: &mut String,
    key: &str,
    list: &Vec<Schema>,
) -> Result<(), AllocError> {
    push_key(out, key)?;
    out.push_str("[")?;
    for schema in list {
        push_comma(out)?;
        push_schema(alloc, out, schema)?;
    }
    out.push_str("]")
}

#[cycle(show)]
fn push_at(
    alloc: Global,
    out: &mut String,
    key: &str,
    schema: &Option<Box<Schema>>,
) -> Result<(), AllocError> {
    match schema {
        Some(schema) => {
            push_key(out, key)?;
            push_schema(alloc, out, schema)
        }
        None => Ok(()),
    }
}
