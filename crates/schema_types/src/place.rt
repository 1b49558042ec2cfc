//! Where a step leads from a place in a document.
ghost use Rattle.std.specs.Prelude.{◌≡◌, option_map, map, bytes_eq, ◌+◌};
ghost use Rattle.std.specs.Int.Digits.{digits_of};
ghost use Rattle.schema_defs.specs.Location.{place};
ghost use Rattle.schema_defs.specs.Schema.{schemas};
ghost use Rattle.schema_defs.specs.Layer.{property_at};
ghost use Rattle.schema_defs.specs.Admits.{defined};
ghost use Rattle.schema_defs.specs.Children.{node_at, document_node, definition_node, schema_node, same_node, lists_node, named_node, list_node, maybe_node, places_node, schema_in, node_schema};
ghost use Rattle.schema_types.specs.View.{schema_view, object_view, subschemas_view, array_view, members_view, items_view, schemas_view, properties_view, maybe_view, maybe_list_view, same_of, lists_of, named_of, places_of};
ghost use Rattle.schema_types.specs.DocumentView.{document_view};
ghost use Rattle.schema_types.specs.Place.{node_view};

use crate::document::Document;
use crate::schema::{ArrayValidation, Items, ObjectValidation, Schema, SchemaObject, Subschemas};
use std::collections::BTreeMap;

// A place that a step may be taken from: the document itself, the definitions under one keyword (`$defs`, or else
// `definitions`), a schema, a list of schemas, or schemas by name.
#[derive(Clone, Copy)]
pub(crate) enum Node<'a> {
    Document(&'a Document),
    Definitions(bool, &'a Document),
    Schema(&'a Schema),
    List(&'a Vec<Schema>),
    Names(&'a BTreeMap<String, Schema>),
}

// The schema that stands at the place.
pub(crate) fn schema_of(node: Node<'_>) -> Option<&Schema>
    ensures { option_map (λ s. schema_view s.now) result ≡ node_schema (node_view node.entry) }
{
    match node {
        Node::Document(document) => Some(document.root()),
        Node::Schema(schema) => Some(schema),
        _ => None,
    }
}

// The place one step further.
pub(crate) fn after<'a>(node: Node<'a>, step: &str) -> Option<Node<'a>>
    ensures { option_map node_view result ≡ node_at step.now (node_view node.entry) }
{
    match node {
        Node::Document(document) => after_document(document, step),
        Node::Definitions(under_defs, document) => after_definitions(under_defs, document, step),
        Node::Schema(schema) => after_schema(schema, step),
        Node::List(list) => after_list(list, step),
        Node::Names(names) => after_names(names, step),
    }
}

fn after_document<'a>(document: &'a Document, step: &str) -> Option<Node<'a>>
    ensures { option_map node_view result ≡ document_node step.now (document_view document.now) }
{
    if step == "definitions" {
        return Some(Node::Definitions(false, document));
    }
    if step == "$defs" {
        return Some(Node::Definitions(true, document));
    }
    after_schema(document.root(), step)
}

#[tactic(auto, using(crate::proofs::References::definition_placed, crate::proofs::References::definition_absent))]
fn after_definitions<'a>(under_defs: bool, document: &'a Document, step: &str) -> Option<Node<'a>>
    ensures { option_map node_view result ≡ definition_node under_defs (defined step.now (document_view document.now).definitions) }
{
    let definition = document.placed(step)?;
    if definition.under_defs == under_defs {
        Some(Node::Schema(&definition.schema))
    } else {
        None
    }
}

fn after_schema<'a>(schema: &'a Schema, step: &str) -> Option<Node<'a>>
    ensures { option_map node_view result ≡ schema_node step.now (schema_view schema.now) }
{
    match schema {
        Schema::Bool(_) => None,
        Schema::Object(object) => after_object(object, step),
    }
}

fn after_object<'a>(object: &'a SchemaObject, step: &str) -> Option<Node<'a>>
    ensures { option_map node_view result ≡ schema_node step.now (object_view object.now) }
{
    if let Some(node) = among_subschemas(&object.subschemas, step) {
        return Some(node);
    }
    if let Some(node) = in_array(&object.array, step) {
        return Some(node);
    }
    in_object(&object.object, step)
}

fn among_subschemas<'a>(subschemas: &'a Option<Subschemas>, step: &str) -> Option<Node<'a>>
    ensures { option_map node_view result ≡ same_node step.now (same_of (option_map subschemas_view subschemas.now)) }
{
    match subschemas {
        None => None,
        Some(subschemas) => after_subschemas(subschemas, step),
    }
}

fn after_subschemas<'a>(subschemas: &'a Subschemas, step: &str) -> Option<Node<'a>>
    ensures { option_map node_view result ≡ same_node step.now (subschemas_view subschemas.now) }
{
    if step == "allOf" {
        the_list(&subschemas.all_of)
    } else if step == "anyOf" {
        the_list(&subschemas.any_of)
    } else if step == "oneOf" {
        the_list(&subschemas.one_of)
    } else if step == "not" {
        the_schema(&subschemas.not)
    } else {
        None
    }
}

fn in_array<'a>(array: &'a Option<ArrayValidation>, step: &str) -> Option<Node<'a>>
    ensures { option_map node_view result ≡ lists_node step.now (lists_of (option_map array_view array.now)) }
{
    match array {
        None => None,
        Some(array) => after_array(array, step),
    }
}

fn after_array<'a>(array: &'a ArrayValidation, step: &str) -> Option<Node<'a>>
    ensures { option_map node_view result ≡ lists_node step.now (array_view array.now) }
{
    if step == "items" {
        the_items(&array.items)
    } else if step == "additionalItems" {
        the_schema(&array.additional_items)
    } else if step == "contains" {
        the_schema(&array.contains)
    } else {
        None
    }
}

fn in_object<'a>(object: &'a Option<ObjectValidation>, step: &str) -> Option<Node<'a>>
    ensures { option_map node_view result ≡ named_node step.now (named_of (option_map members_view object.now)) }
{
    match object {
        None => None,
        Some(object) => after_members(object, step),
    }
}

fn after_members<'a>(object: &'a ObjectValidation, step: &str) -> Option<Node<'a>>
    ensures { option_map node_view result ≡ named_node step.now (members_view object.now) }
{
    if step == "properties" {
        Some(Node::Names(&object.properties))
    } else if step == "patternProperties" {
        Some(Node::Names(&object.pattern_properties))
    } else if step == "additionalProperties" {
        the_schema(&object.additional_properties)
    } else if step == "propertyNames" {
        the_schema(&object.property_names)
    } else {
        None
    }
}

fn the_schema(schema: &Option<Box<Schema>>) -> Option<Node<'_>>
    ensures { option_map node_view result ≡ maybe_node (maybe_view schema.now) }
{
    match schema {
        None => None,
        Some(schema) => Some(Node::Schema(schema)),
    }
}

fn the_list(list: &Option<Vec<Schema>>) -> Option<Node<'_>>
    ensures { option_map node_view result ≡ list_node (maybe_list_view (option_map (λ v. v.items) list.now)) }
{
    match list {
        None => None,
        Some(list) => Some(Node::List(list)),
    }
}

fn the_items(items: &Option<Items>) -> Option<Node<'_>>
    ensures { option_map node_view result ≡ places_node (places_of (option_map items_view items.now)) }
{
    match items {
        None => None,
        Some(Items::One(schema)) => Some(Node::Schema(schema)),
        Some(Items::Many(list)) => Some(Node::List(list)),
    }
}

fn after_list<'a>(list: &'a Vec<Schema>, step: &str) -> Option<Node<'a>>
    ensures { option_map node_view result ≡ maybe_node (schema_in step.now 0 (schemas (schemas_view list.now.items))) }
{
    for (i, schema) in list.iter().enumerate() {
        if is_place(step, i) {
            return Some(Node::Schema(schema));
        }
    }
    None
}

fn after_names<'a>(names: &'a BTreeMap<String, Schema>, step: &str) -> Option<Node<'a>>
    ensures { option_map node_view result ≡ maybe_node (property_at step.now (properties_view names.now.entries)) }
{
    match names.get(step) {
        Some(schema) => Some(Node::Schema(schema)),
        None => None,
    }
}

// Whether the step writes the place.
fn is_place(step: &str, index: usize) -> bool
    ensures { result ≡ bytes_eq step.now (place index) }
{
    if index == 0 {
        return step == "0";
    }
    are_digits(step.as_bytes(), index)
}

// Whether the text is the number's decimal digits; 0 has none.
fn are_digits(text: &[u8], number: usize) -> bool
    ensures { result ≡ bytes_eq text.now (map (λ d. 48 + d) (digits_of 10 number)) }
{
    let mut left = text;
    let mut number = number;
    while number > 0 {
        let Some((last, front)) = left.split_last() else {
            return false;
        };
        if *last != b'0' + (number % 10) as u8 {
            return false;
        }
        left = front;
        number /= 10;
    }
    left.is_empty()
}
