//! The walk over the schemas of a document, in their order.
ghost use Rattle.std.specs.Prelude.{◌≡◌, ◌++◌, OnOk, IfOk, false, is_some, map, string_bytes};
ghost use Rattle.std.specs.List.{flat_map};
ghost use Rattle.serde_json.specs.View.{view, items_view, members_view};
ghost use Rattle.json_value.specs.Value.{member_at};
ghost use Rattle.json_value.specs.View.{value_of, items_of, members_of};
ghost use Rattle.schema_faults.specs.Keywords.{keywords};
ghost use Rattle.schema_faults.specs.Table.{row_of};
ghost use Rattle.schema_faults.specs.Schemas.{held, held_items, held_members, inside_value, list_nodes, nodes_in, nodes_of, object_nodes, one_schema, schema_nodes, under};
ghost use Rattle.schema_defs.specs.Location.{place as place_step};
ghost use Rattle.passed_keywords.specs.Lines.{lines_of, name_lines, row_lines};
ghost use Rattle.passed_keywords.specs.Passed.{has_name as has_a_name, passed_over as all_passed_over, passed_at, passed_line, passed_text as text_of, said};

use schema_faults::{Holds, KEYWORDS, is_known};
use schema_tree::{Location, json_string};
use serde_json::Value;
use serde_json::value::Map;
use std::alloc::{AllocError, Global};

/// Keywords that aren't read, in the order of their bytes.
const PASSED_OVER: [&str; 20] = [
    "$anchor",
    "$dynamicAnchor",
    "$dynamicRef",
    "$id",
    "$recursiveAnchor",
    "$recursiveRef",
    "contentEncoding",
    "contentMediaType",
    "contentSchema",
    "dependencies",
    "dependentRequired",
    "dependentSchemas",
    "divisibleBy",
    "extends",
    "id",
    "maxContains",
    "minContains",
    "prefixItems",
    "unevaluatedItems",
    "unevaluatedProperties",
];

// A name and a place, as they are printed.
fn line_of(alloc: Global, name: &str, place: &str) -> Result<String, AllocError>
    ensures { IfOk result (λ s. string_bytes s ≡ said name.now place.now) }
{
    let mut line = String::from_str(alloc, "passed-over ")?;
    line.push_str(name)?;
    line.push_str(" ")?;
    line.push_str(place)?;
    line.push_str("\n")?;
    Ok(line)
}

// The line of a keyword at a place.
fn line(alloc: Global, place: &Location, keyword: &str) -> Result<String, AllocError>
    ensures { IfOk result (λ s. string_bytes s ≡ passed_line (place.now, keyword.now)) }
{
    let text = place.text(alloc)?;
    let quoted = json_string(alloc, &text)?;
    let name = json_string(alloc, keyword)?;
    let line = line_of(alloc, &name, &quoted)?;
    Ok(line)
}

fn has_name(members: &Map<String, Value>, name: &str) -> bool
    ensures { result ≡ has_a_name (members_of (members_view members.now.entries)) name.now }
{
    match members.get(name) {
        Some(_value) => true,
        None => false,
    }
}

// The line of a name, where the schema has it.
fn push_name(
    out: &mut String,
    alloc: Global,
    place: &Location,
    members: &Map<String, Value>,
    name: &str,
) -> Result<(), AllocError>
    ensures { OnOk result (string_bytes out.new ≡ string_bytes out.old ++ name_lines (members_of (members_view members.now.entries)) place.now name.now) }
{
    if has_name(members, name) {
        out.push_str(&line(alloc, place, name)?)?;
    }
    Ok(())
}

// A line for each of these names that the schema has.
fn push_names(
    out: &mut String,
    alloc: Global,
    place: &Location,
    members: &Map<String, Value>,
    names: &[&str],
) -> Result<(), AllocError>
    ensures { OnOk result (string_bytes out.new ≡ string_bytes out.old ++ flat_map (λ n. name_lines (members_of (members_view members.now.entries)) place.now n.now) names.now) }
{
    for name in names {
        push_name(out, alloc, place, members, name)?;
    }
    Ok(())
}

fn passed_over<'a>() -> &'a [&'a str]
    ensures { map (λ n. n.now) result.now ≡ all_passed_over }
{
    &PASSED_OVER
}

// The keywords that are read, and what each of them holds.
fn known<'a>() -> &'a [(&'a str, Holds)]
    ensures { map row_of result.now ≡ keywords }
{
    &KEYWORDS
}

// The lines of one schema.
fn push_here(
    out: &mut String,
    alloc: Global,
    place: &Location,
    schema: &Value,
) -> Result<(), AllocError>
    ensures { OnOk result ((at_root : _) (keyword : _) → string_bytes out.new ≡ string_bytes out.old ++ flat_map (λ n. passed_line (place.now, n)) (passed_at at_root keyword (value_of (view schema.now)))) }
{
    match schema {
        Value::Object(members) => {
            let names = passed_over();
            push_names(out, alloc, place, members, names)?;
            Ok(())
        }
        _ => Ok(()),
    }
}

// The lines of a schema and of those inside it.
#[cycle(walk)]
fn in_schema(
    out: &mut String,
    alloc: Global,
    place: &Location,
    schema: &Value,
    keyword: &str,
    at_root: bool,
) -> Result<(), AllocError>
    ensures { OnOk result (string_bytes out.new ≡ string_bytes out.old ++ lines_of place.now (schema_nodes at_root keyword.now (value_of (view schema.now)))) }
{
    push_here(out, alloc, place, schema)?;
    inside_schema(out, alloc, place, schema, at_root)?;
    Ok(())
}

#[cycle(walk)]
fn inside_schema(
    out: &mut String,
    alloc: Global,
    place: &Location,
    schema: &Value,
    at_root: bool,
) -> Result<(), AllocError>
    ensures { OnOk result (string_bytes out.new ≡ string_bytes out.old ++ lines_of place.now (inside_value at_root (value_of (view schema.now)))) }
{
    match schema {
        Value::Object(members) => {
            let rows = known();
            in_keywords(out, alloc, place, members, at_root, rows)?;
            Ok(())
        }
        _ => Ok(()),
    }
}

#[cycle(walk)]
fn in_keywords(
    out: &mut String,
    alloc: Global,
    place: &Location,
    members: &Map<String, Value>,
    at_root: bool,
    rows: &[(&str, Holds)],
) -> Result<(), AllocError>
    ensures { OnOk result (string_bytes out.new ≡ string_bytes out.old ++ flat_map (row_lines place.now at_root (members_of (members_view members.now.entries))) rows.now) }
{
    for (keyword, holds) in rows {
        at_keyword(out, alloc, place, members, at_root, keyword, *holds)?;
    }
    Ok(())
}

#[cycle(walk)]
fn at_keyword(
    out: &mut String,
    alloc: Global,
    place: &Location,
    members: &Map<String, Value>,
    at_root: bool,
    keyword: &str,
    holds: Holds,
) -> Result<(), AllocError>
    ensures { OnOk result (string_bytes out.new ≡ string_bytes out.old ++ lines_of place.now (nodes_of at_root (held_members (members_of (members_view members.now.entries))) (keyword.now, holds))) }
{
    if !is_known(at_root, holds) {
        return Ok(());
    }
    match members.get(keyword) {
        Some(value) => {
            let inner = place.child(alloc, keyword)?;
            in_value(out, alloc, &inner, value, keyword, holds)?;
            Ok(())
        }
        None => Ok(()),
    }
}

#[cycle(walk)]
fn in_value(
    out: &mut String,
    alloc: Global,
    place: &Location,
    value: &Value,
    keyword: &str,
    holds: Holds,
) -> Result<(), AllocError>
    ensures { OnOk result (string_bytes out.new ≡ string_bytes out.old ++ lines_of place.now (nodes_in (keyword.now, holds) (held (value_of (view value.now))))) }
{
    match holds {
        Holds::Schema => in_one(out, alloc, place, value, keyword),
        Holds::SomeSchemas | Holds::Schemas => in_list(out, alloc, place, value, keyword),
        Holds::SchemaOrSchemas => in_one_or_list(out, alloc, place, value, keyword),
        Holds::NamedSchemas | Holds::Defs | Holds::Definitions => {
            in_object(out, alloc, place, value, keyword)
        }
        _ => Ok(()),
    }
}

#[cycle(walk)]
fn in_one_or_list(
    out: &mut String,
    alloc: Global,
    place: &Location,
    value: &Value,
    keyword: &str,
) -> Result<(), AllocError>
    ensures { OnOk result (string_bytes out.new ≡ string_bytes out.old ++ lines_of place.now (one_schema keyword.now (held (value_of (view value.now))) ++ (held (value_of (view value.now))).in_list keyword.now)) }
{
    match value {
        Value::Array(items) => in_items(out, alloc, place, items, keyword),
        _ => in_one(out, alloc, place, value, keyword),
    }
}

// What wants a schema and holds another kind holds none.
#[cycle(walk)]
fn in_one(
    out: &mut String,
    alloc: Global,
    place: &Location,
    value: &Value,
    keyword: &str,
) -> Result<(), AllocError>
    ensures { OnOk result (string_bytes out.new ≡ string_bytes out.old ++ lines_of place.now (one_schema keyword.now (held (value_of (view value.now))))) }
{
    match value {
        Value::Object(_) | Value::Bool(_) => in_schema(out, alloc, place, value, keyword, false),
        _ => Ok(()),
    }
}

#[cycle(walk)]
fn in_list(
    out: &mut String,
    alloc: Global,
    place: &Location,
    value: &Value,
    keyword: &str,
) -> Result<(), AllocError>
    ensures { OnOk result (string_bytes out.new ≡ string_bytes out.old ++ lines_of place.now ((held (value_of (view value.now))).in_list keyword.now)) }
{
    match value {
        Value::Array(items) => in_items(out, alloc, place, items, keyword),
        _ => Ok(()),
    }
}

#[cycle(walk)]
fn in_object(
    out: &mut String,
    alloc: Global,
    place: &Location,
    value: &Value,
    keyword: &str,
) -> Result<(), AllocError>
    ensures { OnOk result (string_bytes out.new ≡ string_bytes out.old ++ lines_of place.now ((held (value_of (view value.now))).in_object keyword.now)) }
{
    match value {
        Value::Object(members) => in_members(out, alloc, place, members, keyword),
        _ => Ok(()),
    }
}

#[cycle(walk)]
fn in_item(
    out: &mut String,
    alloc: Global,
    place: &Location,
    index: usize,
    item: &Value,
    keyword: &str,
) -> Result<(), AllocError>
    ensures { OnOk result (string_bytes out.new ≡ string_bytes out.old ++ lines_of place.now (under (place_step index) (schema_nodes false keyword.now (value_of (view item.now))))) }
{
    let step = index.to_string(alloc)?;
    let inner = place.child(alloc, &step)?;
    in_schema(out, alloc, &inner, item, keyword, false)?;
    Ok(())
}

#[cycle(walk)]
fn in_items(
    out: &mut String,
    alloc: Global,
    place: &Location,
    items: &Vec<Value>,
    keyword: &str,
) -> Result<(), AllocError>
    ensures { OnOk result (string_bytes out.new ≡ string_bytes out.old ++ lines_of place.now (list_nodes keyword.now 0 (held_items (items_of (items_view items.now.items))))) }
{
    for (index, item) in items.iter().enumerate() {
        in_item(out, alloc, place, index, item, keyword)?;
    }
    Ok(())
}

#[cycle(walk)]
fn in_member(
    out: &mut String,
    alloc: Global,
    place: &Location,
    name: &str,
    value: &Value,
    keyword: &str,
) -> Result<(), AllocError>
    ensures { OnOk result (string_bytes out.new ≡ string_bytes out.old ++ lines_of place.now (under name.now (schema_nodes false keyword.now (value_of (view value.now))))) }
{
    let inner = place.child(alloc, name)?;
    in_schema(out, alloc, &inner, value, keyword, false)?;
    Ok(())
}

#[cycle(walk)]
fn in_members(
    out: &mut String,
    alloc: Global,
    place: &Location,
    members: &Map<String, Value>,
    keyword: &str,
) -> Result<(), AllocError>
    ensures { OnOk result (string_bytes out.new ≡ string_bytes out.old ++ lines_of place.now (object_nodes keyword.now (held_members (members_of (members_view members.now.entries))))) }
{
    for (name, value) in members.iter() {
        in_member(out, alloc, place, name, value, keyword)?;
    }
    Ok(())
}

/// A line `passed-over KEYWORD PLACE` for each keyword of the document's schemas that isn't read though it binds values or names schemas in some draft of
/// JSON Schema, with the place of its schema, both as JSON strings. Fails where memory runs out.
pub fn passed_text(alloc: Global, document: &Value) -> Result<String, AllocError>
    ensures { IfOk result (λ s. string_bytes s ≡ text_of (value_of (view document.now))) }
{
    let mut text = String::new(alloc);
    let root = Location::root(alloc);
    in_schema(&mut text, alloc, &root, document, "", true)?;
    Ok(text)
}
