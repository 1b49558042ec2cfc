//! The walk over the schemas of a document, in their order, to the first of which something is told. The way there is built
//! on the way out.

ghost use Rattle.std.specs.Prelude.{◌≡◌, ◌∷◌, ◌++◌, IfOk, option_map, map};
ghost use Rattle.std.specs.List.{flat_map};
ghost use Rattle.serde_json.specs.View.{view, items_view, members_view};
ghost use Rattle.json_value.specs.View.{value_of, items_of, members_of};
ghost use Rattle.schema_faults.specs.Schemas.{held, held_items, held_members, inside_value, list_nodes, nodes_in, nodes_of, object_nodes, one_schema, schema_nodes};
ghost use Rattle.schema_faults.specs.Faults.{first, is_float, malformed_keywords, mark_if, some_keyword};
ghost use Rattle.schema_faults.specs.Search.{first_among, told_by};
ghost use Rattle.schema_faults.specs.Table.{row_of};

use crate::float::has_float;
use crate::found::Found;
use crate::keyword::{Holds, KEYWORDS, first_broken, is_known};
use crate::kind::is_schema;
use crate::reference::bad_reference;
use serde_json::Value;
use serde_json::value::Map;
use std::alloc::{AllocError, Global};

/// What is looked for.
#[derive(Clone, Copy)]
pub(crate) enum Sought {
    Malformed,
    BadReference,
    Float,
}

/// A search through a document.
#[derive(Clone, Copy)]
pub(crate) struct Search<'d> {
    pub(crate) document: &'d Value,
    pub(crate) sought: Sought,
}

// The first that is told of one schema, which the keyword holds.
fn told_here<'v>(
    search: &Search<'_>,
    alloc: Global,
    schema: &'v Value,
    keyword: &'v str,
    at_root: bool,
) -> Result<Option<&'v str>, AllocError>
    ensures { IfOk result (λ o. option_map (λ t. t.now) o ≡ first (told_by search.now at_root keyword.now (value_of (view schema.now)))) }
{
    match search.sought {
        Sought::Malformed => Ok(malformed_keyword(schema, keyword, at_root)),
        Sought::BadReference => bad_reference(alloc, search.document, schema),
        Sought::Float => Ok(mark_of_float(schema)),
    }
}

fn malformed_keyword<'v>(schema: &Value, keyword: &'v str, at_root: bool) -> Option<&'v str>
    ensures { option_map (λ t. t.now) result ≡ first (malformed_keywords at_root keyword.now (value_of (view schema.now))) }
{
    match schema {
        Value::Object(members) => first_broken(at_root, members, &KEYWORDS),
        Value::Bool(_) => None,
        _ => Some(keyword),
    }
}

fn mark_of_float(schema: &Value) -> Option<&'static str>
    ensures { option_map (λ t. t.now) result ≡ first (mark_if (some_keyword is_float (value_of (view schema.now)))) }
{
    if has_float(schema) { Some("") } else { None }
}

/// The first that is told of a schema and of those inside it.
#[cycle(search)]
pub(crate) fn in_schema(
    search: &Search<'_>,
    alloc: Global,
    schema: &Value,
    keyword: &str,
    at_root: bool,
) -> Result<Option<Found>, AllocError>
    ensures { IfOk result (λ o. o ≡ first_among search.now (schema_nodes at_root keyword.now (value_of (view schema.now)))) }
{
    match told_here(search, alloc, schema, keyword, at_root)? {
        Some(text) => Ok(Some(Found::here(alloc, text)?)),
        None => inside_schema(search, alloc, schema, at_root),
    }
}

#[cycle(search)]
fn inside_schema(
    search: &Search<'_>,
    alloc: Global,
    schema: &Value,
    at_root: bool,
) -> Result<Option<Found>, AllocError>
    ensures { IfOk result (λ o. o ≡ first_among search.now (inside_value at_root (value_of (view schema.now)))) }
{
    match schema {
        Value::Object(members) => in_keywords(search, alloc, members, at_root, &KEYWORDS),
        _ => Ok(None),
    }
}

#[cycle(search)]
fn in_keywords(
    search: &Search<'_>,
    alloc: Global,
    members: &Map<String, Value>,
    at_root: bool,
    rows: &[(&str, Holds)],
) -> Result<Option<Found>, AllocError>
    ensures { IfOk result (λ o. o ≡ first_among search.now (flat_map (nodes_of at_root (held_members (members_of (members_view members.now.entries)))) (map row_of rows.now))) }
{
    for (keyword, holds) in rows {
        if let Some(found) = at_keyword(search, alloc, members, at_root, keyword, *holds)? {
            return Ok(Some(found));
        }
    }
    Ok(None)
}

#[cycle(search)]
fn at_keyword(
    search: &Search<'_>,
    alloc: Global,
    members: &Map<String, Value>,
    at_root: bool,
    keyword: &str,
    holds: Holds,
) -> Result<Option<Found>, AllocError>
    ensures { IfOk result (λ o. o ≡ first_among search.now (nodes_of at_root (held_members (members_of (members_view members.now.entries))) (keyword.now, holds))) }
{
    if !is_known(at_root, holds) {
        return Ok(None);
    }
    match members.get(keyword) {
        Some(value) => {
            let found = in_value(search, alloc, value, keyword, holds)?;
            under(alloc, keyword, found)
        }
        None => Ok(None),
    }
}

fn under(alloc: Global, step: &str, found: Option<Found>) -> Result<Option<Found>, AllocError>
    ensures { IfOk result (λ o. o ≡ option_map (λ f. (step.now ∷ f.0, f.1)) found) }
{
    match found {
        Some(found) => Ok(Some(found.under(alloc, step)?)),
        None => Ok(None),
    }
}

#[cycle(search)]
fn in_value(
    search: &Search<'_>,
    alloc: Global,
    value: &Value,
    keyword: &str,
    holds: Holds,
) -> Result<Option<Found>, AllocError>
    ensures { IfOk result (λ o. o ≡ first_among search.now (nodes_in (keyword.now, holds) (held (value_of (view value.now))))) }
{
    match holds {
        Holds::Schema => in_one(search, alloc, value, keyword),
        Holds::SomeSchemas | Holds::Schemas => in_list(search, alloc, value, keyword),
        Holds::SchemaOrSchemas => in_one_or_list(search, alloc, value, keyword),
        Holds::NamedSchemas | Holds::Defs | Holds::Definitions => {
            in_object(search, alloc, value, keyword)
        }
        _ => Ok(None),
    }
}

#[cycle(search)]
fn in_one_or_list(
    search: &Search<'_>,
    alloc: Global,
    value: &Value,
    keyword: &str,
) -> Result<Option<Found>, AllocError>
    ensures { IfOk result (λ o. o ≡ first_among search.now (one_schema keyword.now (held (value_of (view value.now))) ++ (held (value_of (view value.now))).in_list keyword.now)) }
{
    match value {
        Value::Array(items) => in_items(search, alloc, items, keyword),
        _ => in_one(search, alloc, value, keyword),
    }
}

// What wants a schema and holds another kind holds none.
#[cycle(search)]
fn in_one(
    search: &Search<'_>,
    alloc: Global,
    value: &Value,
    keyword: &str,
) -> Result<Option<Found>, AllocError>
    ensures { IfOk result (λ o. o ≡ first_among search.now (one_schema keyword.now (held (value_of (view value.now))))) }
{
    if is_schema(value) {
        in_schema(search, alloc, value, keyword, false)
    } else {
        Ok(None)
    }
}

#[cycle(search)]
fn in_list(
    search: &Search<'_>,
    alloc: Global,
    value: &Value,
    keyword: &str,
) -> Result<Option<Found>, AllocError>
    ensures { IfOk result (λ o. o ≡ first_among search.now ((held (value_of (view value.now))).in_list keyword.now)) }
{
    match value {
        Value::Array(items) => in_items(search, alloc, items, keyword),
        _ => Ok(None),
    }
}

#[cycle(search)]
fn in_object(
    search: &Search<'_>,
    alloc: Global,
    value: &Value,
    keyword: &str,
) -> Result<Option<Found>, AllocError>
    ensures { IfOk result (λ o. o ≡ first_among search.now ((held (value_of (view value.now))).in_object keyword.now)) }
{
    match value {
        Value::Object(members) => in_members(search, alloc, members, keyword),
        _ => Ok(None),
    }
}

#[cycle(search)]
fn in_items(
    search: &Search<'_>,
    alloc: Global,
    items: &Vec<Value>,
    keyword: &str,
) -> Result<Option<Found>, AllocError>
    ensures { IfOk result (λ o. o ≡ first_among search.now (list_nodes keyword.now 0 (held_items (items_of (items_view items.now.items))))) }
{
    for (i, item) in items.iter().enumerate() {
        if let Some(found) = in_schema(search, alloc, item, keyword, false)? {
            return Ok(Some(found.under_place(alloc, i)?));
        }
    }
    Ok(None)
}

#[cycle(search)]
fn in_members(
    search: &Search<'_>,
    alloc: Global,
    members: &Map<String, Value>,
    keyword: &str,
) -> Result<Option<Found>, AllocError>
    ensures { IfOk result (λ o. o ≡ first_among search.now (object_nodes keyword.now (held_members (members_of (members_view members.now.entries))))) }
{
    for (name, value) in members.iter() {
        if let Some(found) = in_schema(search, alloc, value, keyword, false)? {
            return Ok(Some(found.under(alloc, name)?));
        }
    }
    Ok(None)
}
