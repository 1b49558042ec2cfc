//! Whether a reference leads to the root.
ghost use Rattle.std.specs.Prelude.{◌≡◌, option_map, string_bytes};
ghost use Rattle.std.specs.List.{list_any};
ghost use Rattle.schema_defs.specs.Schema.{schemas};
ghost use Rattle.schema_tree.specs.Document.{view as document_seen};
ghost use Rattle.schema_types.specs.View.{schema_view, object_view, subschemas_view, array_view, members_view, items_view, schemas_view, properties_view, maybe_view};
ghost use Rattle.convert_defs.specs.RootReference.{is_root, has_root, root_in_same, root_in_lists, root_in_named, root_in_maybe, root_in_all, root_in_places, root_in_properties, refers_to_root as refers_to_root_of};
ghost use Rattle.root_references.specs.Named.{named_has_root};

use schema_tree::{
    ArrayValidation, Document, Items, ObjectValidation, Schema, SchemaObject, Subschemas,
};
use std::collections::BTreeMap;

fn is_root(reference: &Option<String>) -> bool
    ensures { result ≡ is_root (option_map string_bytes reference.now) }
{
    match reference {
        Some(reference) => reference.as_str() == "#",
        None => false,
    }
}

#[cycle(roots)]
fn in_schema(schema: &Schema) -> bool
    ensures { result ≡ has_root (schema_view schema.now) }
{
    match schema {
        Schema::Bool(_) => false,
        Schema::Object(object) => in_object(object),
    }
}

#[cycle(roots)]
fn in_object(object: &SchemaObject) -> bool
    ensures { result ≡ has_root (object_view object.now) }
{
    let own = is_root(&object.reference);
    let same = match &object.subschemas {
        Some(subschemas) => in_subschemas(subschemas),
        None => false,
    };
    let lists = match &object.array {
        Some(array) => in_array(array),
        None => false,
    };
    let named = match &object.object {
        Some(members) => in_members(members),
        None => false,
    };
    own || (same || (lists || named))
}

#[cycle(roots)]
fn in_subschemas(subschemas: &Subschemas) -> bool
    ensures { result ≡ root_in_same (subschemas_view subschemas.now) }
{
    let all = match &subschemas.all_of {
        Some(list) => in_all(list),
        None => false,
    };
    let any = match &subschemas.any_of {
        Some(list) => in_all(list),
        None => false,
    };
    let one = match &subschemas.one_of {
        Some(list) => in_all(list),
        None => false,
    };
    let none = in_maybe(&subschemas.not);
    all || (any || (one || none))
}

#[cycle(roots)]
fn in_array(array: &ArrayValidation) -> bool
    ensures { result ≡ root_in_lists (array_view array.now) }
{
    let places = match &array.items {
        Some(items) => in_items(items),
        None => false,
    };
    let others = in_maybe(&array.additional_items);
    let contains = in_maybe(&array.contains);
    places || (others || contains)
}

#[cycle(roots)]
fn in_items(items: &Items) -> bool
    ensures { result ≡ root_in_places (items_view items.now) }
{
    match items {
        Items::One(schema) => in_schema(schema),
        Items::Many(list) => in_all(list),
    }
}

#[cycle(roots)]
fn in_members(members: &ObjectValidation) -> bool
    ensures { result ≡ root_in_named (members_view members.now) }
{
    let properties = in_properties(&members.properties);
    let patterns = in_properties(&members.pattern_properties);
    let others = in_maybe(&members.additional_properties);
    let names = in_maybe(&members.property_names);
    properties || (patterns || (others || names))
}

#[cycle(roots)]
fn in_all(list: &Vec<Schema>) -> bool
    ensures { result ≡ root_in_all (schemas (schemas_view list.now.items)) }
{
    for schema in list {
        if in_schema(schema) {
            return true;
        }
    }
    false
}

#[cycle(roots)]
fn in_properties(properties: &BTreeMap<String, Schema>) -> bool
    ensures { result ≡ root_in_properties (properties_view properties.now.entries) }
{
    for (_, schema) in properties.iter() {
        if in_schema(schema) {
            return true;
        }
    }
    false
}

#[cycle(roots)]
fn in_maybe(schema: &Option<Box<Schema>>) -> bool
    ensures { result ≡ root_in_maybe (maybe_view schema.now) }
{
    match schema {
        Some(schema) => in_schema(schema),
        None => false,
    }
}

// Whether a definition has such a reference.
#[tactic(auto, using(crate::proofs::Found::any_by_name))]
fn in_definitions(document: &Document) -> bool
    ensures { result ≡ list_any (λ e. has_root e.body) (document_seen document.now).definitions }
{
    let mut names = document.names();
    while let Some(name) = names.next() {
        if in_named(document, name) {
            return true;
        }
    }
    false
}

#[tactic(auto, using(crate::proofs::Bodies::has_root_in))]
fn in_named(document: &Document, name: &str) -> bool
    ensures { result ≡ named_has_root (document_seen document.now).definitions name.now }
{
    match document.definition(name) {
        Some(schema) => in_schema(schema),
        None => false,
    }
}

/// Whether a reference of the document leads to the root. It takes no memory.
pub fn refers_to_root(document: &Document) -> bool
    ensures { result ≡ refers_to_root_of (document_seen document.now) }
{
    in_schema(document.root()) || in_definitions(document)
}
