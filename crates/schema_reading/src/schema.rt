//! A value as a schema, as a list of schemas and as schemas by name.

ghost use Rattle.std.specs.Prelude.{◌≡◌, [], IfOk, option_map, option_and_then, map, string_bytes, unwrap_or};
ghost use Rattle.serde_json.specs.View.{view, items_view, members_view};
ghost use Rattle.json_value.specs.View.{value_of, items_of};
ghost use Rattle.schema_defs.specs.Schema.{Schema as ASchema, no_properties, object as object_of, schemas as schemas_of_list};
ghost use Rattle.schema_defs.specs.Read.{item_readings, keyword as word, lists_of, named_of, places_of, properties_of, reading, same_of, schema_of, schemas_of, unless_empty};
ghost use Rattle.schema_types.specs.View.{array_view, items_view as places_view, lists_of as lists_in, members_view as named_view, named_of as named_in, object_view, properties_view, same_of as same_in, schema_view, schemas_view, subschemas_view};
ghost use Rattle.schema_reading.specs.Reading.{looked_up, readings};
ghost use Rattle.schema_reading.specs.Parts.{plain_view};

use crate::keyword::{flag_at, size_at};
use crate::list::names_at;
use crate::part::{Plain, plain_keywords, stands};
use schema_types::{
    ArrayValidation, Items, ObjectValidation, Schema, SchemaObject, Subschemas, as_schema,
};
use serde_json::Value;
use serde_json::value::Map;
use std::alloc::{AllocError, Global};
use std::collections::{BTreeMap, BTreeSet};

const CONDITION_WORDS: [&str; 3] = ["if", "then", "else"];

const SAME_WORDS: [&str; 7] = ["allOf", "anyOf", "oneOf", "not", "if", "then", "else"];

const LIST_WORDS: [&str; 6] = [
    "items",
    "additionalItems",
    "contains",
    "maxItems",
    "minItems",
    "uniqueItems",
];

const MEMBER_WORDS: [&str; 7] = [
    "properties",
    "patternProperties",
    "additionalProperties",
    "propertyNames",
    "maxProperties",
    "minProperties",
    "required",
];

/// A value as a schema.
#[cycle(read)]
pub(crate) fn schema(alloc: Global, value: &Value) -> Result<Option<Schema>, AllocError>
    ensures { IfOk result (λ o. option_map schema_view o ≡ (reading (value_of (view value.now))).as_schema) }
{
    match value {
        Value::Bool(flag) => Ok(Some(Schema::Bool(*flag))),
        Value::Object(members) => object_schema(alloc, members),
        _ => Ok(None),
    }
}

/// An object as a schema: its plain keywords first, then those of the same value, of lists and of members.
#[cycle(read)]
pub(crate) fn object_schema(
    alloc: Global,
    members: &Map<String, Value>,
) -> Result<Option<Schema>, AllocError>
    ensures { IfOk result (λ o. option_map schema_view o ≡ schema_of (looked_up members.now.entries)) }
{
    let Some(plain) = plain_keywords(alloc, members)? else {
        return Ok(None);
    };
    let Some(subschemas) = same_value(alloc, members)? else {
        return Ok(None);
    };
    let Some(array) = lists(alloc, members)? else {
        return Ok(None);
    };
    let Some(object) = named(alloc, members)? else {
        return Ok(None);
    };
    let whole = assembled(plain, subschemas, array, object);
    Ok(Some(as_schema(Box::new(alloc, whole)?)))
}

fn assembled(
    plain: Plain,
    subschemas: Option<Subschemas>,
    array: Option<ArrayValidation>,
    object: Option<ObjectValidation>,
) -> SchemaObject
    ensures { object_view result ≡ object_of (plain_view plain) (same_in (option_map subschemas_view subschemas)) (lists_in (option_map array_view array)) (named_in (option_map named_view object)) }
{
    SchemaObject {
        title: plain.title,
        description: plain.description,
        default: plain.default,
        const_value: plain.const_value,
        types: plain.types,
        format: plain.format,
        enum_values: plain.enum_values,
        subschemas,
        number: plain.number,
        string: plain.string,
        array,
        object,
        reference: plain.reference,
        walk: None,
    }
}

// The keywords that judge the same value.
#[cycle(read)]
fn same_value(
    alloc: Global,
    members: &Map<String, Value>,
) -> Result<Option<Option<Subschemas>>, AllocError>
    ensures { IfOk result (λ o. option_map (λ s. same_in (option_map subschemas_view s)) o ≡ same_of (looked_up members.now.entries)) }
{
    if !stands(members, &SAME_WORDS) {
        return Ok(Some(None));
    }
    let Some(all_of) = filled_list_at(alloc, members, "allOf")? else {
        return Ok(None);
    };
    let Some(any_of) = list_at(alloc, members, "anyOf")? else {
        return Ok(None);
    };
    let Some(one_of) = list_at(alloc, members, "oneOf")? else {
        return Ok(None);
    };
    let Some(not) = schema_at(alloc, members, "not")? else {
        return Ok(None);
    };
    Ok(Some(Some(Subschemas {
        all_of,
        any_of,
        one_of,
        not,
        conditional: stands(members, &CONDITION_WORDS),
    })))
}

// The keywords of lists.
#[cycle(read)]
fn lists(
    alloc: Global,
    members: &Map<String, Value>,
) -> Result<Option<Option<ArrayValidation>>, AllocError>
    ensures { IfOk result (λ o. option_map (λ a. lists_in (option_map array_view a)) o ≡ lists_of (looked_up members.now.entries)) }
{
    if !stands(members, &LIST_WORDS) {
        return Ok(Some(None));
    }
    let Some(items) = places_at(alloc, members, "items")? else {
        return Ok(None);
    };
    let Some(additional_items) = schema_at(alloc, members, "additionalItems")? else {
        return Ok(None);
    };
    let Some(contains) = schema_at(alloc, members, "contains")? else {
        return Ok(None);
    };
    let Some(max_items) = size_at(members, "maxItems") else {
        return Ok(None);
    };
    let Some(min_items) = size_at(members, "minItems") else {
        return Ok(None);
    };
    let Some(unique_items) = flag_at(members, "uniqueItems") else {
        return Ok(None);
    };
    Ok(Some(Some(ArrayValidation {
        items,
        additional_items,
        contains,
        max_items,
        min_items,
        unique_items,
    })))
}

// The keywords of objects.
#[cycle(read)]
fn named(
    alloc: Global,
    members: &Map<String, Value>,
) -> Result<Option<Option<ObjectValidation>>, AllocError>
    ensures { IfOk result (λ o. option_map (λ n. named_in (option_map named_view n)) o ≡ named_of (looked_up members.now.entries)) }
{
    if !stands(members, &MEMBER_WORDS) {
        return Ok(Some(None));
    }
    let Some(properties) = schemas_by_name_at(alloc, members, "properties")? else {
        return Ok(None);
    };
    let Some(patterns) = schemas_by_name_at(alloc, members, "patternProperties")? else {
        return Ok(None);
    };
    let Some(additional_properties) = schema_at(alloc, members, "additionalProperties")? else {
        return Ok(None);
    };
    let Some(property_names) = schema_at(alloc, members, "propertyNames")? else {
        return Ok(None);
    };
    let Some(max_properties) = size_at(members, "maxProperties") else {
        return Ok(None);
    };
    let Some(min_properties) = size_at(members, "minProperties") else {
        return Ok(None);
    };
    let Some(required) = names_at(alloc, members, "required")? else {
        return Ok(None);
    };
    Ok(Some(Some(ObjectValidation {
        max_properties,
        min_properties,
        required: or_no_names(alloc, required),
        properties: or_no_schemas(alloc, properties),
        pattern_properties: or_no_schemas(alloc, patterns),
        additional_properties,
        property_names,
    })))
}

fn or_no_names(alloc: Global, names: Option<BTreeSet<String>>) -> BTreeSet<String>
    ensures { map string_bytes result.keys ≡ unwrap_or (option_map (λ s. map string_bytes s.keys) names) [] }
{
    match names {
        Some(names) => names,
        None => BTreeSet::new(alloc),
    }
}

pub(crate) fn or_no_schemas(
    alloc: Global,
    schemas: Option<BTreeMap<String, Schema>>,
) -> BTreeMap<String, Schema>
    ensures { properties_view result.entries ≡ unwrap_or (option_map (λ m. properties_view m.entries) schemas) no_properties }
{
    match schemas {
        Some(schemas) => schemas,
        None => BTreeMap::new(alloc),
    }
}

// ---- what stands at one keyword

#[cycle(read)]
fn schema_at(
    alloc: Global,
    members: &Map<String, Value>,
    keyword: &str,
) -> Result<Option<Option<Box<Schema>>>, AllocError>
    ensures { IfOk result (λ o. option_map (option_map (λ b. schema_view b.value)) o ≡ word keyword.now (λ r. r.as_schema) (looked_up members.now.entries)) }
{
    match members.get(keyword) {
        None => Ok(Some(None)),
        Some(value) => match schema(alloc, value)? {
            Some(schema) => Ok(Some(Some(Box::new(alloc, schema)?))),
            None => Ok(None),
        },
    }
}

#[cycle(read)]
fn list_at(
    alloc: Global,
    members: &Map<String, Value>,
    keyword: &str,
) -> Result<Option<Option<Vec<Schema>>>, AllocError>
    ensures { IfOk result (λ o. option_map (option_map (λ v. schemas_of_list (schemas_view v.items))) o ≡ word keyword.now (λ r. r.as_list) (looked_up members.now.entries)) }
{
    match members.get(keyword) {
        None => Ok(Some(None)),
        Some(value) => match schema_list(alloc, value)? {
            Some(schemas) => Ok(Some(Some(schemas))),
            None => Ok(None),
        },
    }
}

#[cycle(read)]
fn filled_list_at(
    alloc: Global,
    members: &Map<String, Value>,
    keyword: &str,
) -> Result<Option<Option<Vec<Schema>>>, AllocError>
    ensures { IfOk result (λ o. option_map (option_map (λ v. schemas_of_list (schemas_view v.items))) o ≡ word keyword.now (λ r. option_and_then unless_empty r.as_list) (looked_up members.now.entries)) }
{
    match members.get(keyword) {
        None => Ok(Some(None)),
        Some(value) => match filled(schema_list(alloc, value)?) {
            Some(schemas) => Ok(Some(Some(schemas))),
            None => Ok(None),
        },
    }
}

fn filled(schemas: Option<Vec<Schema>>) -> Option<Vec<Schema>>
    ensures { option_map (λ v. schemas_of_list (schemas_view v.items)) result ≡ option_and_then unless_empty (option_map (λ v. schemas_of_list (schemas_view v.items)) schemas) }
{
    match schemas {
        Some(schemas) => if schemas.is_empty() {
            None
        } else {
            Some(schemas)
        },
        None => None,
    }
}

#[cycle(read)]
fn places_at(
    alloc: Global,
    members: &Map<String, Value>,
    keyword: &str,
) -> Result<Option<Option<Items>>, AllocError>
    ensures { IfOk result (λ o. option_map (option_map places_view) o ≡ word keyword.now places_of (looked_up members.now.entries)) }
{
    match members.get(keyword) {
        None => Ok(Some(None)),
        Some(value) => match places(alloc, value)? {
            Some(places) => Ok(Some(Some(places))),
            None => Ok(None),
        },
    }
}

/// Schemas by name at a keyword.
#[cycle(read)]
pub(crate) fn schemas_by_name_at(
    alloc: Global,
    members: &Map<String, Value>,
    keyword: &str,
) -> Result<Option<Option<BTreeMap<String, Schema>>>, AllocError>
    ensures { IfOk result (λ o. option_map (option_map (λ m. properties_view m.entries)) o ≡ word keyword.now (λ r. r.as_named) (looked_up members.now.entries)) }
{
    match members.get(keyword) {
        None => Ok(Some(None)),
        Some(value) => match schemas_by_name(alloc, value)? {
            Some(schemas) => Ok(Some(Some(schemas))),
            None => Ok(None),
        },
    }
}

// ---- what one value is read as

#[cycle(read)]
fn schema_list(alloc: Global, value: &Value) -> Result<Option<Vec<Schema>>, AllocError>
    ensures { IfOk result (λ o. option_map (λ v. schemas_of_list (schemas_view v.items)) o ≡ (reading (value_of (view value.now))).as_list) }
{
    match value {
        Value::Array(items) => schemas_in(alloc, items),
        _ => Ok(None),
    }
}

#[cycle(read)]
fn schemas_in(alloc: Global, items: &Vec<Value>) -> Result<Option<Vec<Schema>>, AllocError>
    ensures { IfOk result (λ o. option_map (λ v. schemas_of_list (schemas_view v.items)) o ≡ schemas_of (item_readings (items_of (items_view items.now.items)))) }
{
    let mut schemas = Vec::with_capacity(alloc, items.len())?;
    for item in items {
        match schema(alloc, item)? {
            Some(schema) => schemas.push(schema)?,
            None => return Ok(None),
        }
    }
    Ok(Some(schemas))
}

// A schema, or else a list of schemas.
#[cycle(read)]
fn places(alloc: Global, value: &Value) -> Result<Option<Items>, AllocError>
    ensures { IfOk result (λ o. option_map places_view o ≡ places_of (reading (value_of (view value.now)))) }
{
    match schema(alloc, value)? {
        Some(schema) => Ok(Some(Items::One(Box::new(alloc, schema)?))),
        None => match schema_list(alloc, value)? {
            Some(schemas) => Ok(Some(Items::Many(schemas))),
            None => Ok(None),
        },
    }
}

#[cycle(read)]
fn schemas_by_name(
    alloc: Global,
    value: &Value,
) -> Result<Option<BTreeMap<String, Schema>>, AllocError>
    ensures { IfOk result (λ o. option_map (λ m. properties_view m.entries) o ≡ (reading (value_of (view value.now))).as_named) }
{
    match value {
        Value::Object(members) => named_schemas(alloc, members),
        _ => Ok(None),
    }
}

#[cycle(read)]
fn named_schemas(
    alloc: Global,
    members: &Map<String, Value>,
) -> Result<Option<BTreeMap<String, Schema>>, AllocError>
    ensures { IfOk result (λ o. option_map (λ m. properties_view m.entries) o ≡ properties_of (readings members.now.entries)) }
{
    let mut schemas = BTreeMap::new(alloc);
    for (name, value) in members.iter() {
        match schema(alloc, value)? {
            Some(schema) => {
                let name = String::from_str(alloc, name)?;
                drop(schemas.insert(name, schema)?);
            }
            None => return Ok(None),
        }
    }
    Ok(Some(schemas))
}
