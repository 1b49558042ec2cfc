//! Whether an object may be merged without what stands aside of it.
ghost use Rattle.std.specs.Prelude.{◌≡◌, ◌||◌, ◌&&◌};
ghost use Rattle.std.specs.List.{list_any};
ghost use Rattle.schema_types.specs.View.{object_view, properties_view, schema_view};
ghost use Rattle.enum_defs.specs.Words.{names_of};
ghost use Rattle.merge_apart.specs.Aside.{is_apart as is_apart_of, is_open as is_open_of, merges_apart as merges_apart_of, names_alone as names_alone_of, stands_aside as stands_aside_of};
ghost use Rattle.merge_apart.specs.View.{aside_view};

use crate::aside::Aside;
use schema_types::{Schema, SchemaObject};
use std::collections::BTreeMap;

// ---- names

fn stands_aside(aside: &Aside, name: &str) -> bool
    ensures { result ≡ stands_aside_of (aside_view aside.now) name.now }
{
    aside.properties.contains_key(name) || aside.required.contains(name)
}

fn some_stands_aside(aside: &Aside, properties: &BTreeMap<String, Schema>) -> bool
    ensures { result ≡ list_any (stands_aside_of (aside_view aside.now)) (names_of (properties_view properties.now.entries)) }
{
    for (name, _) in properties.iter() {
        if stands_aside(aside, name.as_str()) {
            return true;
        }
    }
    false
}

fn object_is_apart(aside: &Aside, object: &SchemaObject) -> bool
    ensures { result ≡ is_apart_of (aside_view aside.now) (object_view object.now) }
{
    match &object.object {
        None => true,
        Some(members) => !some_stands_aside(aside, &members.properties),
    }
}

fn is_apart(aside: &Aside, schema: &Schema) -> bool
    ensures { result ≡ is_apart_of (aside_view aside.now) (schema_view schema.now) }
{
    match schema {
        Schema::Bool(_) => true,
        Schema::Object(object) => object_is_apart(aside, object),
    }
}

// ---- forms

fn object_is_open(object: &SchemaObject) -> bool
    ensures { result ≡ is_open_of (object_view object.now) }
{
    if object.walk.is_none() || object.reference.is_some() || object.subschemas.is_some() {
        return false;
    }
    match &object.object {
        None => false,
        Some(members) => members.pattern_properties.is_empty() && members.property_names.is_none(),
    }
}

fn is_open(schema: &Schema) -> bool
    ensures { result ≡ is_open_of (schema_view schema.now) }
{
    match schema {
        Schema::Bool(_) => false,
        Schema::Object(object) => object_is_open(object),
    }
}

fn object_names_alone(object: &SchemaObject) -> bool
    ensures { result ≡ names_alone_of (object_view object.now) }
{
    if object.reference.is_some() || object.subschemas.is_some() {
        return false;
    }
    match &object.object {
        None => true,
        Some(members) => {
            members.pattern_properties.is_empty()
                && members.additional_properties.is_none()
                && members.property_names.is_none()
        }
    }
}

fn names_alone(schema: &Schema) -> bool
    ensures { result ≡ names_alone_of (schema_view schema.now) }
{
    match schema {
        Schema::Bool(_) => false,
        Schema::Object(object) => object_names_alone(object),
    }
}

// Whether their keywords allow it.
pub(crate) fn are_forms(body: &Schema, other: &Schema) -> bool
    ensures { result ≡ (is_open_of (schema_view body.now) && names_alone_of (schema_view other.now)) }
{
    is_open(body) && names_alone(other)
}

fn are_apart(aside: &Aside, body: &Schema, other: &Schema) -> bool
    ensures { result ≡ (is_apart_of (aside_view aside.now) (schema_view body.now) && is_apart_of (aside_view aside.now) (schema_view other.now)) }
{
    is_apart(aside, body) && is_apart(aside, other)
}

/// Whether an object may be merged with another schema without what stands aside of it: the object has its walk, no names by pattern, and neither of both a
/// reference or subschemas; the other says nothing of names that it doesn't name; and no property of either stands aside.
pub fn merges_apart(aside: &Aside, body: &Schema, other: &Schema) -> bool
    ensures { result ≡ merges_apart_of (aside_view aside.now) (schema_view body.now) (schema_view other.now) }
{
    are_forms(body, other) && are_apart(aside, body, other)
}
