//! The properties of an object, gathered from the last to the first.
ghost use Rattle.std.specs.Prelude.{◌≡◌, IfOk, OnOk, true};
ghost use Rattle.json_value.specs.View.{kept_view};
ghost use Rattle.value_models.specs.FieldView.{default_view, field_view, fields_view};
ghost use Rattle.value_models.specs.TypeView.{type_view};
ghost use Rattle.describe_defs.specs.Description.{with_entry};
ghost use Rattle.describe_defs.specs.Written.{field_value as field_value_of, type_value as value_of_type};
ghost use Rattle.model_defs.specs.Model.{some_helper};
ghost use Rattle.model_defs.specs.Layer.{has_default as has_default_in, helped_type, present_type};
ghost use Rattle.described_values.specs.Seen.{kept_entries};
ghost use Rattle.described_values.specs.Shown.{entries_view, nothing_shown, shown_field, shown_fields, shown_with};

use described_types::{text_value, type_value};
use serde_json::Value;
use serde_json::value::Map;
use std::alloc::{AllocError, Global};
use value_models::{Field, FieldDefault, Helper, ValueType};

/// The properties by their names, and those that are required, each with its name as a text.
#[derive(Drop)]
pub(crate) struct Entries {
    pub(crate) properties: Map<String, Value>,
    pub(crate) required: Map<String, Value>,
}

/// Puts a member where its name stands in order. A name that stands there already has no second place: there is no memory
/// for it.
#[tactic(auto, using(crate::proofs::Entered::entry_added))]
pub(crate) fn add_member(
    alloc: Global,
    members: &mut Map<String, Value>,
    name: &str,
    value: Value,
) -> Result<(), AllocError>
    ensures { OnOk result (kept_entries members.new.entries ≡ with_entry (name.now, kept_view value) (kept_entries members.old.entries)) }
{
    let name = String::from_str(alloc, name)?;
    let before = members.insert(name, value)?;
    if before.is_some() {
        return Err(AllocError);
    }
    Ok(())
}

/// No properties.
pub(crate) fn no_entries(alloc: Global) -> Entries
    ensures { entries_view result ≡ nothing_shown }
{
    Entries {
        properties: Map::new(alloc),
        required: Map::new(alloc),
    }
}

/// Puts a property before the others.
pub(crate) fn add_entry(
    alloc: Global,
    entries: &mut Entries,
    name: &str,
    body: Value,
    required: bool,
) -> Result<(), AllocError>
    ensures { OnOk result (entries_view entries.new ≡ shown_with (record { name = name.now; body = kept_view body; required = required }) (entries_view entries.old)) }
{
    add_member(alloc, &mut entries.properties, name, body)?;
    if !required {
        return Ok(());
    }
    let text = text_value(alloc, name)?;
    add_member(alloc, &mut entries.required, name, text)?;
    Ok(())
}

/// Puts a property that is required before the others.
pub(crate) fn add_required(
    alloc: Global,
    entries: &mut Entries,
    name: &str,
    body: Value,
) -> Result<(), AllocError>
    ensures { OnOk result (entries_view entries.new ≡ shown_with (record { name = name.now; body = kept_view body; required = true }) (entries_view entries.old)) }
{
    add_entry(alloc, entries, name, body, true)?;
    Ok(())
}

fn has_default(default: FieldDefault) -> bool
    ensures { result ≡ has_default_in (default_view default) }
{
    match default {
        FieldDefault::Nothing => false,
        FieldDefault::Own | FieldDefault::Stated(_) => true,
    }
}

// What an option holds, as a schema.
fn inner_value(alloc: Global, ty: &ValueType) -> Result<Value, AllocError>
    ensures { IfOk result (λ v. kept_view v ≡ value_of_type (helped_type some_helper (type_view ty.now))) }
{
    match ty {
        ValueType::Optional(inner) => {
            let value = type_value(alloc, inner)?;
            Ok(value)
        }
        _ => Ok(Value::Null),
    }
}

fn present_value(alloc: Global, field: &Field) -> Result<Value, AllocError>
    ensures { IfOk result (λ v. kept_view v ≡ value_of_type (present_type (field_view field.now))) }
{
    match field.helper {
        Helper::Inner => {
            let value = inner_value(alloc, &field.field_type)?;
            Ok(value)
        }
        Helper::Nothing | Helper::Whole => {
            let value = type_value(alloc, &field.field_type)?;
            Ok(value)
        }
    }
}

fn add_field(alloc: Global, entries: &mut Entries, field: &Field) -> Result<(), AllocError>
    ensures { OnOk result (entries_view entries.new ≡ shown_with (field_value_of (field_view field.now)) (entries_view entries.old)) }
{
    let body = present_value(alloc, field)?;
    add_entry(
        alloc,
        entries,
        &field.serialize_name,
        body,
        !has_default(field.default),
    )?;
    Ok(())
}

// A field, unless it is a rest and rests are passed over.
fn add_picked(
    alloc: Global,
    entries: &mut Entries,
    all: bool,
    field: &Field,
) -> Result<(), AllocError>
    ensures { OnOk result (entries_view entries.new ≡ shown_field all (field_view field.now) (entries_view entries.old)) }
{
    if !all && field.is_rest {
        return Ok(());
    }
    add_field(alloc, entries, field)?;
    Ok(())
}

/// Fields as properties: all, or those that are no rest.
#[tactic(auto, using(crate::proofs::Entered::field_before, crate::proofs::Entered::all_fields))]
pub(crate) fn gather_fields(
    alloc: Global,
    all: bool,
    fields: &[Field],
) -> Result<Entries, AllocError>
    ensures { IfOk result (λ e. entries_view e ≡ shown_fields all (fields_view fields.now)) }
{
    let mut entries = no_entries(alloc);
    let mut left = fields.len();
    while left > 0 {
        left -= 1;
        add_picked(alloc, &mut entries, all, &fields[left])?;
    }
    Ok(entries)
}
