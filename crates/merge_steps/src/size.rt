//! How large schemas are.
use schema_types::{
    ArrayValidation, Items, ObjectValidation, Schema, SchemaObject, Subschemas, Walk,
};
use std::collections::BTreeMap;

// The locations of a walk, and their steps.
fn size_of_walk(walk: &Walk) -> u64 {
    let mut size = 0u64;
    for location in &walk.locations {
        size = size
            .saturating_add(location.steps.len() as u64)
            .saturating_add(1);
    }
    size
}

/// How many schemas stand in a schema, itself with them, how many values they list, and how long the walks to them are.
#[cycle(size)]
pub fn size_of(schema: &Schema) -> u64 {
    match schema {
        Schema::Bool(_) => 1,
        Schema::Object(object) => size_of_object(object),
    }
}

#[cycle(size)]
fn size_of_object(object: &SchemaObject) -> u64 {
    let listed = match &object.enum_values {
        Some(values) => values.len() as u64,
        None => 0,
    };
    let subschemas = match &object.subschemas {
        Some(subschemas) => size_of_subschemas(subschemas),
        None => 0,
    };
    let array = match &object.array {
        Some(array) => size_of_array(array),
        None => 0,
    };
    let members = match &object.object {
        Some(members) => size_of_members(members),
        None => 0,
    };
    let walk = match &object.walk {
        Some(walk) => size_of_walk(walk),
        None => 0,
    };
    listed
        .saturating_add(walk)
        .saturating_add(subschemas)
        .saturating_add(array)
        .saturating_add(members)
        .saturating_add(1)
}

#[cycle(size)]
fn size_of_subschemas(subschemas: &Subschemas) -> u64 {
    let all = match &subschemas.all_of {
        Some(schemas) => size_of_list(schemas),
        None => 0,
    };
    let any = match &subschemas.any_of {
        Some(schemas) => size_of_list(schemas),
        None => 0,
    };
    let one = match &subschemas.one_of {
        Some(schemas) => size_of_list(schemas),
        None => 0,
    };
    all.saturating_add(any)
        .saturating_add(one)
        .saturating_add(size_of_maybe(&subschemas.not))
}

#[cycle(size)]
fn size_of_array(array: &ArrayValidation) -> u64 {
    let items = match &array.items {
        Some(Items::One(schema)) => size_of(schema),
        Some(Items::Many(schemas)) => size_of_list(schemas),
        None => 0,
    };
    items
        .saturating_add(size_of_maybe(&array.additional_items))
        .saturating_add(size_of_maybe(&array.contains))
}

#[cycle(size)]
fn size_of_members(members: &ObjectValidation) -> u64 {
    size_of_properties(&members.properties)
        .saturating_add(size_of_properties(&members.pattern_properties))
        .saturating_add(size_of_maybe(&members.additional_properties))
        .saturating_add(size_of_maybe(&members.property_names))
}

#[cycle(size)]
fn size_of_maybe(schema: &Option<Box<Schema>>) -> u64 {
    match schema {
        Some(schema) => size_of(schema),
        None => 0,
    }
}

#[cycle(size)]
fn size_of_list(schemas: &Vec<Schema>) -> u64 {
    let mut size = 0u64;
    for schema in schemas {
        size = size.saturating_add(size_of(schema));
    }
    size
}

#[cycle(size)]
fn size_of_properties(properties: &BTreeMap<String, Schema>) -> u64 {
    let mut size = 0u64;
    for (_, schema) in properties.iter() {
        size = size.saturating_add(size_of(schema));
    }
    size
}
