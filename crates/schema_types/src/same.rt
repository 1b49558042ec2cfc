//! Whether two schemas are the same in all but walks.
ghost use Rattle.std.specs.Prelude.{◌≡◌, Decides, map, option_map, string_bytes, bytes_eq};
ghost use Rattle.std.specs.Cmp.Lexicographic.{pointwise};
ghost use Rattle.json_value.specs.Value.{same as same_value, same_bool};
ghost use Rattle.schema_defs.specs.Schema.{schemas};
ghost use Rattle.schema_defs.specs.Mapped.{mapped, unwalked};
ghost use Rattle.json_value.specs.View.{kept_view};
ghost use Rattle.schema_types.specs.View.{types_view, numbers_view, texts_view, schema_view, object_view, subschemas_view, items_view, array_view, members_view, schemas_view, properties_view, maybe_view, same_of, lists_of, named_of, places_of};
ghost use Rattle.schema_types.specs.Same.{same_option, same_kind, same_types, same_numbers, same_texts, same_text, same_number, same_keywords, same_sizes, same_schemas, same_sames, same_lists, same_named, same_maybe, same_all, same_places, same_properties};

use crate::schema::{
    ArrayValidation, Items, NumberValidation, ObjectValidation, Schema, SchemaObject,
    StringValidation, Subschemas, Types,
};
use json_value::same;
use schema_defs::InstanceType;
use serde_json::Value;
use std::collections::{BTreeMap, BTreeSet};

impl Schema {
    /// Whether the schemas are the same in all but walks. It takes no memory.
    #[tactic(auto, using(crate::proofs::Alike::schemas_Decides))]
    pub fn same(&self, other: &Schema) -> bool
        ensures { Decides result (mapped unwalked (schema_view self.now) ≡ mapped unwalked (schema_view other.now)) }
    {
        equal_schemas(self, other)
    }
}

// ---- keywords that hold no schema

fn equal_texts(a: &Option<String>, b: &Option<String>) -> bool
    ensures { result ≡ same_text (option_map string_bytes a.now) (option_map string_bytes b.now) }
{
    match (a, b) {
        (None, None) => true,
        (Some(x), Some(y)) => x.as_str() == y.as_str(),
        _ => false,
    }
}

fn equal_values(a: &Option<Value>, b: &Option<Value>) -> bool
    ensures { result ≡ same_option same_value (option_map kept_view a.now) (option_map kept_view b.now) }
{
    match (a, b) {
        (None, None) => true,
        (Some(x), Some(y)) => same(x, y),
        _ => false,
    }
}

fn equal_lists_of_values(a: &Vec<Value>, b: &Vec<Value>) -> bool
    ensures { result ≡ pointwise same_value (map kept_view a.now.items) (map kept_view b.now.items) }
{
    let mut others = b.iter();
    for x in a.iter() {
        match others.next() {
            Some(y) => if !same(x, y) {
                return false;
            },
            None => return false,
        }
    }
    others.next().is_none()
}

fn equal_enums(a: &Option<Vec<Value>>, b: &Option<Vec<Value>>) -> bool
    ensures { result ≡ same_option (pointwise same_value) (option_map (λ v. map kept_view v.items) a.now) (option_map (λ v. map kept_view v.items) b.now) }
{
    match (a, b) {
        (None, None) => true,
        (Some(x), Some(y)) => equal_lists_of_values(x, y),
        _ => false,
    }
}

fn equal_kinds(a: InstanceType, b: InstanceType) -> bool
    ensures { result ≡ same_kind a b }
{
    a == b
}

fn equal_lists_of_kinds(a: &Vec<InstanceType>, b: &Vec<InstanceType>) -> bool
    ensures { result ≡ pointwise same_kind a.now.items b.now.items }
{
    a == b
}

fn equal_types(a: &Option<Types>, b: &Option<Types>) -> bool
    ensures { result ≡ same_option same_types (option_map types_view a.now) (option_map types_view b.now) }
{
    match (a, b) {
        (None, None) => true,
        (Some(Types::One(x)), Some(Types::One(y))) => equal_kinds(*x, *y),
        (Some(Types::Many(x)), Some(Types::Many(y))) => equal_lists_of_kinds(x, y),
        _ => false,
    }
}

fn equal_numbers(a: &Option<NumberValidation>, b: &Option<NumberValidation>) -> bool
    ensures { result ≡ same_option same_numbers (option_map numbers_view a.now) (option_map numbers_view b.now) }
{
    match (a, b) {
        (None, None) => true,
        (Some(x), Some(y)) => {
            x.multiple_of == y.multiple_of
                && x.maximum == y.maximum
                && x.exclusive_maximum == y.exclusive_maximum
                && x.minimum == y.minimum
                && x.exclusive_minimum == y.exclusive_minimum
        }
        _ => false,
    }
}

#[tactic(auto, using(crate::proofs::Lists::pointwise_of_texts))]
fn equal_lists_of_texts(a: &Vec<String>, b: &Vec<String>) -> bool
    ensures { result ≡ pointwise bytes_eq (map string_bytes a.now.items) (map string_bytes b.now.items) }
{
    a == b
}

fn equal_strings(a: &Option<StringValidation>, b: &Option<StringValidation>) -> bool
    ensures { result ≡ same_option same_texts (option_map texts_view a.now) (option_map texts_view b.now) }
{
    match (a, b) {
        (None, None) => true,
        (Some(x), Some(y)) => {
            x.max_length == y.max_length
                && x.min_length == y.min_length
                && equal_lists_of_texts(&x.patterns, &y.patterns)
        }
        _ => false,
    }
}

#[tactic(auto, using(crate::proofs::Lists::pointwise_of_texts))]
fn equal_names(a: &BTreeSet<String>, b: &BTreeSet<String>) -> bool
    ensures { result ≡ pointwise bytes_eq (map string_bytes a.now.keys) (map string_bytes b.now.keys) }
{
    a == b
}

fn equal_counts(a: Option<u32>, b: Option<u32>) -> bool
    ensures { result ≡ same_number a b }
{
    a == b
}

fn equal_flags(a: Option<bool>, b: Option<bool>) -> bool
    ensures { result ≡ same_option same_bool a b }
{
    a == b
}

// Whether the keywords that hold no schema are the same, the walk aside.
#[tactic(auto, unfolding(crate::specs::Same::same_plain))]
fn equal_keywords(a: &SchemaObject, b: &SchemaObject) -> bool
    ensures { result ≡ same_keywords (object_view a.now) (object_view b.now) }
{
    equal_texts(&a.title, &b.title)
        && equal_texts(&a.description, &b.description)
        && equal_values(&a.default, &b.default)
        && equal_values(&a.const_value, &b.const_value)
        && equal_types(&a.types, &b.types)
        && equal_texts(&a.format, &b.format)
        && equal_enums(&a.enum_values, &b.enum_values)
        && equal_numbers(&a.number, &b.number)
        && equal_strings(&a.string, &b.string)
        && equal_texts(&a.reference, &b.reference)
}

// Whether the keywords of lists that hold no schema are the same.
fn equal_sizes(a: &ArrayValidation, b: &ArrayValidation) -> bool
    ensures { result ≡ same_sizes (array_view a.now) (array_view b.now) }
{
    equal_counts(a.max_items, b.max_items)
        && equal_counts(a.min_items, b.min_items)
        && equal_flags(a.unique_items, b.unique_items)
}

// ---- schemas

#[cycle(same)]
fn equal_schemas(a: &Schema, b: &Schema) -> bool
    ensures { result ≡ same_schemas (schema_view a.now) (schema_view b.now) }
{
    match (a, b) {
        (Schema::Bool(x), Schema::Bool(y)) => *x == *y,
        (Schema::Object(x), Schema::Object(y)) => equal_objects(x, y),
        _ => false,
    }
}

#[cycle(same)]
fn equal_objects(a: &SchemaObject, b: &SchemaObject) -> bool
    ensures { result ≡ same_schemas (object_view a.now) (object_view b.now) }
{
    equal_keywords(a, b)
        && equal_maybe_subschemas(&a.subschemas, &b.subschemas)
        && equal_maybe_arrays(&a.array, &b.array)
        && equal_maybe_members(&a.object, &b.object)
}

#[cycle(same)]
fn equal_maybe_subschemas(a: &Option<Subschemas>, b: &Option<Subschemas>) -> bool
    ensures { result ≡ same_sames (same_of (option_map subschemas_view a.now)) (same_of (option_map subschemas_view b.now)) }
{
    match (a, b) {
        (None, None) => true,
        (Some(x), Some(y)) => equal_subschemas(x, y),
        _ => false,
    }
}

#[cycle(same)]
fn equal_subschemas(a: &Subschemas, b: &Subschemas) -> bool
    ensures { result ≡ same_sames (subschemas_view a.now) (subschemas_view b.now) }
{
    let all_of = match (&a.all_of, &b.all_of) {
        (None, None) => true,
        (Some(x), Some(y)) => equal_lists(x, y),
        _ => false,
    };
    let any_of = match (&a.any_of, &b.any_of) {
        (None, None) => true,
        (Some(x), Some(y)) => equal_lists(x, y),
        _ => false,
    };
    let one_of = match (&a.one_of, &b.one_of) {
        (None, None) => true,
        (Some(x), Some(y)) => equal_lists(x, y),
        _ => false,
    };
    all_of && any_of && one_of && equal_maybe(&a.not, &b.not) && a.conditional == b.conditional
}

#[cycle(same)]
fn equal_maybe_arrays(a: &Option<ArrayValidation>, b: &Option<ArrayValidation>) -> bool
    ensures { result ≡ same_lists (lists_of (option_map array_view a.now)) (lists_of (option_map array_view b.now)) }
{
    match (a, b) {
        (None, None) => true,
        (Some(x), Some(y)) => equal_arrays(x, y),
        _ => false,
    }
}

#[cycle(same)]
fn equal_arrays(a: &ArrayValidation, b: &ArrayValidation) -> bool
    ensures { result ≡ same_lists (array_view a.now) (array_view b.now) }
{
    equal_maybe_items(&a.items, &b.items)
        && equal_maybe(&a.additional_items, &b.additional_items)
        && equal_maybe(&a.contains, &b.contains)
        && equal_sizes(a, b)
}

#[cycle(same)]
fn equal_maybe_items(a: &Option<Items>, b: &Option<Items>) -> bool
    ensures { result ≡ same_places (places_of (option_map items_view a.now)) (places_of (option_map items_view b.now)) }
{
    match (a, b) {
        (None, None) => true,
        (Some(Items::One(x)), Some(Items::One(y))) => equal_schemas(x, y),
        (Some(Items::Many(x)), Some(Items::Many(y))) => equal_lists(x, y),
        _ => false,
    }
}

#[cycle(same)]
fn equal_maybe_members(a: &Option<ObjectValidation>, b: &Option<ObjectValidation>) -> bool
    ensures { result ≡ same_named (named_of (option_map members_view a.now)) (named_of (option_map members_view b.now)) }
{
    match (a, b) {
        (None, None) => true,
        (Some(x), Some(y)) => equal_members(x, y),
        _ => false,
    }
}

#[cycle(same)]
fn equal_members(a: &ObjectValidation, b: &ObjectValidation) -> bool
    ensures { result ≡ same_named (members_view a.now) (members_view b.now) }
{
    equal_properties(&a.properties, &b.properties)
        && equal_properties(&a.pattern_properties, &b.pattern_properties)
        && equal_maybe(&a.additional_properties, &b.additional_properties)
        && equal_maybe(&a.property_names, &b.property_names)
        && equal_counts(a.max_properties, b.max_properties)
        && equal_counts(a.min_properties, b.min_properties)
        && equal_names(&a.required, &b.required)
}

#[cycle(same)]
fn equal_maybe(a: &Option<Box<Schema>>, b: &Option<Box<Schema>>) -> bool
    ensures { result ≡ same_maybe (maybe_view a.now) (maybe_view b.now) }
{
    match (a, b) {
        (None, None) => true,
        (Some(x), Some(y)) => equal_schemas(x, y),
        _ => false,
    }
}

#[cycle(same)]
fn equal_lists(a: &Vec<Schema>, b: &Vec<Schema>) -> bool
    ensures { result ≡ same_all (schemas (schemas_view a.now.items)) (schemas (schemas_view b.now.items)) }
{
    if a.len() != b.len() {
        return false;
    }
    for i in 0..a.len() {
        if !equal_schemas(&a[i], &b[i]) {
            return false;
        }
    }
    true
}

#[cycle(same)]
fn equal_properties(a: &BTreeMap<String, Schema>, b: &BTreeMap<String, Schema>) -> bool
    ensures { result ≡ same_properties (properties_view a.now.entries) (properties_view b.now.entries) }
{
    let mut others = b.iter();
    for (name, x) in a.iter() {
        match others.next() {
            Some((other, y)) => if name.as_str() != other.as_str() || !equal_schemas(x, y) {
                return false;
            },
            None => return false,
        }
    }
    others.next().is_none()
}
