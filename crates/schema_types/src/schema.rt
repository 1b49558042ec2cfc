//! Schemas. A part of a schema is there where one of its keywords stands (JSON Schema Draft 7).
use locations::Walk;
use schema_defs::InstanceType;
use serde_json::Value;
use std::collections::{BTreeMap, BTreeSet};

/// A schema: `true`, which admits every value, `false`, which admits none, or an object of keywords.
#[cycle(schema)]
#[derive(Drop)]
pub enum Schema {
    Bool(bool),
    Object(Box<SchemaObject>),
}

/// The keywords of a schema. `walk` says how a conversion came here; it constrains nothing.
#[cycle(schema)]
#[derive(Drop)]
pub struct SchemaObject {
    pub title: Option<String>,
    pub description: Option<String>,
    pub default: Option<Value>,
    pub const_value: Option<Value>,
    pub types: Option<Types>,
    pub format: Option<String>,
    pub enum_values: Option<Vec<Value>>,
    pub subschemas: Option<Subschemas>,
    pub number: Option<NumberValidation>,
    pub string: Option<StringValidation>,
    pub array: Option<ArrayValidation>,
    pub object: Option<ObjectValidation>,
    pub reference: Option<String>,
    pub walk: Option<Walk>,
}

/// What `type` holds: a name, or a list of names.
pub enum Types {
    One(InstanceType),
    Many(Vec<InstanceType>),
}

impl Drop for Types {
    fn drop(self) {
        match self {
            Types::One(_) => {}
            Types::Many(_instance_types) => {}
        }
    }
}

/// `allOf`, `anyOf`, `oneOf` and `not`, which judge the same value as the schema that holds them; and whether one of
/// `if`, `then` and `else` stands.
#[cycle(schema)]
#[derive(Drop)]
pub struct Subschemas {
    pub all_of: Option<Vec<Schema>>,
    pub any_of: Option<Vec<Schema>>,
    pub one_of: Option<Vec<Schema>>,
    pub not: Option<Box<Schema>>,
    pub conditional: bool,
}

/// Keywords of numbers. A multiple is at least 1; a bound is an i64 or a u64.
#[derive(Clone, Copy)]
pub struct NumberValidation {
    pub multiple_of: Option<u64>,
    pub maximum: Option<i128>,
    pub exclusive_maximum: Option<i128>,
    pub minimum: Option<i128>,
    pub exclusive_minimum: Option<i128>,
}

/// Keywords of texts. Lengths count characters; a text has each of the patterns.
pub struct StringValidation {
    pub max_length: Option<u32>,
    pub min_length: Option<u32>,
    pub patterns: Vec<String>,
}

impl Drop for StringValidation {
    fn drop(self) {
        let StringValidation {
            max_length: _,
            min_length: _,
            patterns: _patterns,
        } = self;
    }
}

/// Keywords of lists.
#[cycle(schema)]
#[derive(Drop)]
pub struct ArrayValidation {
    pub items: Option<Items>,
    pub additional_items: Option<Box<Schema>>,
    pub contains: Option<Box<Schema>>,
    pub max_items: Option<u32>,
    pub min_items: Option<u32>,
    pub unique_items: Option<bool>,
}

/// What `items` holds: a schema for each item, or one for each place.
#[cycle(schema)]
#[derive(Drop)]
pub enum Items {
    One(Box<Schema>),
    Many(Vec<Schema>),
}

/// Keywords of objects, the schemas in the order of their names.
#[cycle(schema)]
#[derive(Drop)]
pub struct ObjectValidation {
    pub max_properties: Option<u32>,
    pub min_properties: Option<u32>,
    pub required: BTreeSet<String>,
    pub properties: BTreeMap<String, Schema>,
    pub pattern_properties: BTreeMap<String, Schema>,
    pub additional_properties: Option<Box<Schema>>,
    pub property_names: Option<Box<Schema>>,
}
