//! A value as a schema document.

ghost use Rattle.std.specs.Prelude.{◌≡◌, IfOk, Some, option_map};
ghost use Rattle.serde_json.specs.View.{view, members_view};
ghost use Rattle.json_value.specs.Value.{object as object_value};
ghost use Rattle.json_value.specs.View.{value_of, members_of};
ghost use Rattle.schema_defs.specs.Read.{definitions_of, document_of, with_definitions};
ghost use Rattle.schema_types.specs.View.{properties_view};
ghost use Rattle.schema_types.specs.DocumentView.{definitions_view, document_view};
ghost use Rattle.schema_reading.specs.Reading.{looked_up};

use crate::schema::{object_schema, or_no_schemas, schemas_by_name_at};
use schema_types::{Definition, Document, Schema, Setting};
use serde_json::Value;
use serde_json::value::Map;
use std::alloc::{AllocError, Global};
use std::collections::BTreeMap;

/// The schema document that a JSON value is under a setting (JSON Schema Draft 7, in the profile that is read), or nothing
/// where a known keyword holds what it may not, a fraction stands where a number or a value is kept, or one name stands
/// under both `definitions` and `$defs`. Fails only for want of memory.
#[tactic(auto, unfolding(schema_defs::specs::Read::document_of))]
pub fn document(
    alloc: Global,
    value: &Value,
    setting: Setting,
) -> Result<Option<Document>, AllocError>
    ensures { IfOk result (λ o. option_map document_view o ≡ document_of setting (value_of (view value.now))) }
{
    match value {
        Value::Bool(flag) => Ok(Some(Document::new(
            setting,
            Schema::Bool(*flag),
            BTreeMap::new(alloc),
        ))),
        Value::Object(members) => object_document(alloc, members, setting),
        _ => Ok(None),
    }
}

fn object_document(
    alloc: Global,
    members: &Map<String, Value>,
    setting: Setting,
) -> Result<Option<Document>, AllocError>
    ensures { IfOk result (λ o. option_map document_view o ≡ document_of setting (object_value (members_of (members_view members.now.entries)))) }
{
    let Some(root) = object_schema(alloc, members)? else {
        return Ok(None);
    };
    let Some(definitions) = definitions(alloc, members)? else {
        return Ok(None);
    };
    Ok(Some(Document::new(setting, root, definitions)))
}

// The definitions under both keywords, unless one name stands under both.
fn definitions(
    alloc: Global,
    members: &Map<String, Value>,
) -> Result<Option<BTreeMap<String, Definition>>, AllocError>
    ensures { IfOk result (λ o. option_map (λ m. definitions_view m.entries) o ≡ definitions_of (looked_up members.now.entries)) }
{
    let Some(older) = schemas_by_name_at(alloc, members, "definitions")? else {
        return Ok(None);
    };
    let Some(newer) = schemas_by_name_at(alloc, members, "$defs")? else {
        return Ok(None);
    };
    let none = BTreeMap::new(alloc);
    let Some(first) = joined(false, or_no_schemas(alloc, older), none)? else {
        return Ok(None);
    };
    joined(true, or_no_schemas(alloc, newer), first)
}

// The definitions with the schemas, unless a name of a schema stands among them already.
fn joined(
    under_defs: bool,
    mut schemas: BTreeMap<String, Schema>,
    mut definitions: BTreeMap<String, Definition>,
) -> Result<Option<BTreeMap<String, Definition>>, AllocError>
    ensures { IfOk result (λ o. option_map (λ m. definitions_view m.entries) o ≡ with_definitions under_defs (properties_view schemas.entries) (Some (definitions_view definitions.entries))) }
{
    while let Some(entry) = schemas.pop_last() {
        let (name, schema) = entry;
        let placed = Definition { under_defs, schema };
        if definitions.insert(name, placed)?.is_some() {
            return Ok(None);
        }
    }
    Ok(Some(definitions))
}
