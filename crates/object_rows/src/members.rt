//! Which keywords of members stand.
ghost use Rattle.std.specs.Prelude.{◌≡◌, ◌||◌, is_some, map, string_bytes};
ghost use Rattle.schema_defs.specs.Schema.{the_schema};
ghost use Rattle.schema_defs.specs.Layer.{property_at, is_given};
ghost use Rattle.schema_types.specs.View.{members_view, maybe_view, properties_view, schema_view};
ghost use Rattle.enum_defs.specs.Words.{is_name};
ghost use Rattle.convert_defs.specs.Owners.{above_zero as above_zero_of, is_false as is_false_of, keeps_rest as keeps_rest_of, no_property as no_property_of, is_empty as is_empty_of, each_alike, are_alike as are_alike_of, is_shut as is_shut_of};
ghost use Rattle.object_rows.specs.Parts.{rules_in, names_nothing as names_nothing_of, is_map as is_map_of, is_pattern_map as is_pattern_map_of};
ghost use Rattle.schema_types.specs.Same.{same_schemas};

use schema_types::{ObjectValidation, Schema};
use std::collections::btree_map::Iter;
use std::collections::{BTreeMap, BTreeSet};

fn above_zero(count: Option<u32>) -> bool
    ensures { result ≡ above_zero_of count }
{
    match count {
        Some(count) => count != 0,
        None => false,
    }
}

/// Whether the number of members is bounded. It takes no memory.
pub fn is_counted(members: &ObjectValidation) -> bool
    ensures { result ≡ (above_zero_of (rules_in (members_view members.now)).min_properties || is_some (rules_in (members_view members.now)).max_properties) }
{
    above_zero(members.min_properties) || members.max_properties.is_some()
}

fn is_false_schema(schema: &Schema) -> bool
    ensures { result ≡ is_false_of (the_schema (schema_view schema.now)) }
{
    match schema {
        Schema::Bool(b) => !*b,
        Schema::Object(_) => false,
    }
}

/// Whether members that no property names are refused. It takes no memory.
pub fn is_false(schema: &Option<Box<Schema>>) -> bool
    ensures { result ≡ is_false_of (maybe_view schema.now) }
{
    match schema {
        Some(schema) => is_false_schema(schema),
        None => false,
    }
}

fn is_kept(schema: &Schema) -> bool
    ensures { result ≡ keeps_rest_of (the_schema (schema_view schema.now)) }
{
    match schema {
        Schema::Bool(_) => false,
        Schema::Object(_) => true,
    }
}

/// Whether members that no property names meet a schema that is no boolean. It takes no memory.
pub fn keeps_rest(schema: &Option<Box<Schema>>) -> bool
    ensures { result ≡ keeps_rest_of (maybe_view schema.now) }
{
    match schema {
        Some(schema) => is_kept(schema),
        None => false,
    }
}

fn is_shut(schema: &Option<Box<Schema>>) -> bool
    ensures { result ≡ is_shut_of (maybe_view schema.now) }
{
    match schema {
        Some(schema) => is_false_schema(schema),
        None => true,
    }
}

/// Whether no schema stands for a name. It takes no memory.
pub fn is_without(properties: &BTreeMap<String, Schema>) -> bool
    ensures { result ≡ no_property_of (properties_view properties.now.entries) }
{
    properties.is_empty()
}

/// Whether the name is required. It takes no memory.
pub fn is_required(required: &BTreeSet<String>, name: &str) -> bool
    ensures { result ≡ is_name name.now (map string_bytes required.now.keys) }
{
    required.contains(name)
}

/// Whether the name is that of a property. It takes no memory.
pub fn is_property(properties: &BTreeMap<String, Schema>, name: &str) -> bool
    ensures { result ≡ is_given (property_at name.now (properties_view properties.now.entries)) }
{
    properties.contains_key(name)
}

fn names_nothing(members: &ObjectValidation) -> bool
    ensures { result ≡ names_nothing_of (members_view members.now) }
{
    is_without(&members.properties) && requires_nothing(&members.required)
}

fn requires_nothing(required: &BTreeSet<String>) -> bool
    ensures { result ≡ is_empty_of (map string_bytes required.now.keys) }
{
    required.is_empty()
}

/// Whether no property is named or required, no pattern stands and other members aren't refused. It takes no memory.
pub fn is_map(members: &ObjectValidation) -> bool
    ensures { result ≡ is_map_of (members_view members.now) }
{
    names_nothing(members)
        && is_without(&members.pattern_properties)
        && !is_false(&members.additional_properties)
}

/// Whether no property is named or required, and one schema stands under all of the patterns. It takes no memory.
pub fn is_pattern_map(members: &ObjectValidation) -> bool
    ensures { result ≡ is_pattern_map_of (members_view members.now) }
{
    names_nothing(members)
        && members.property_names.is_none()
        && is_shut(&members.additional_properties)
        && are_alike(&members.pattern_properties)
}

fn same(schema: &Schema, other: &Schema) -> bool
    ensures { result ≡ same_schemas (schema_view schema.now) (schema_view other.now) }
{
    schema.same(other)
}

// One or more schemas, all the same.
fn are_alike(patterns: &BTreeMap<String, Schema>) -> bool
    ensures { result ≡ are_alike_of (properties_view patterns.now.entries) }
{
    let mut entries = patterns.iter();
    match entries.next() {
        Some((_, first)) => are_all(first, entries),
        None => false,
    }
}

// Whether each of the schemas is the same as the first.
fn are_all(first: &Schema, entries: Iter<'_, String, Schema>) -> bool
    ensures { result ≡ each_alike (schema_view first.now) (properties_view entries.entry) }
{
    for (_, schema) in entries {
        if !same(schema, first) {
            return false;
        }
    }
    true
}
