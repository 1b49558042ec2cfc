//! What is said of the item of one schema.
ghost use Rattle.std.specs.Prelude.{◌≡◌, IfOk, option_map, string_bytes};
ghost use Rattle.schema_types.specs.View.{object_view, schema_view};
ghost use Rattle.item_docs.specs.Said.{other_than as other_than_name, said_of as said_of_schema, said_where as said_where_schema, stated as stated_by, with_gap as with_gap_between};

use schema_types::{Schema, SchemaObject};
use std::alloc::{AllocError, Global};

fn stated(text: &Option<String>) -> &str
    ensures { result.now ≡ stated_by (option_map string_bytes text.now) }
{
    match text {
        Some(text) => text.as_str(),
        None => "",
    }
}

// The title, unless it is the item's name.
fn other_than<'a>(item: &str, title: &'a Option<String>) -> &'a str
    ensures { result.now ≡ other_than_name item.now (option_map string_bytes title.now) }
{
    match title {
        Some(title) => {
            if title.as_str() == item {
                return "";
            }
            title.as_str()
        }
        None => "",
    }
}

// Both, with an empty line between them.
fn with_gap(alloc: Global, title: &str, description: &str) -> Result<String, AllocError>
    ensures { IfOk result (λ s. string_bytes s ≡ with_gap_between title.now description.now) }
{
    if title == "" {
        return Ok(String::from_str(alloc, description)?);
    }
    if description == "" {
        return Ok(String::from_str(alloc, title)?);
    }
    let mut text = String::from_str(alloc, title)?;
    text.push_str("\n\n")?;
    text.push_str(description)?;
    Ok(text)
}

pub(crate) fn said_of_object(
    alloc: Global,
    item: &str,
    schema: &SchemaObject,
) -> Result<String, AllocError>
    ensures { IfOk result (λ s. string_bytes s ≡ said_of_schema item.now (object_view schema.now)) }
{
    let title = other_than(item, &schema.title);
    let description = stated(&schema.description);
    with_gap(alloc, title, description)
}

/// The title of a schema, unless it is the item's name, an empty line, and the description, as far as they are stated. Fails where memory runs out.
pub(crate) fn said_of(alloc: Global, item: &str, schema: &Schema) -> Result<String, AllocError>
    ensures { IfOk result (λ s. string_bytes s ≡ said_of_schema item.now (schema_view schema.now)) }
{
    match schema {
        Schema::Bool(_) => Ok(String::new(alloc)),
        Schema::Object(object) => said_of_object(alloc, item, object),
    }
}

/// The same, where there is a schema.
pub(crate) fn said_where(
    alloc: Global,
    item: &str,
    schema: Option<&Schema>,
) -> Result<String, AllocError>
    ensures { IfOk result (λ s. string_bytes s ≡ said_where_schema item.now (option_map (λ s. schema_view s.now) schema.entry)) }
{
    match schema {
        Some(schema) => said_of(alloc, item, schema),
        None => Ok(String::new(alloc)),
    }
}
