//! The fields of structs: one for each property, and what stands outside `properties`.
ghost use Rattle.std.specs.Prelude.{◌≡◌, ◌++◌, [], ◌∷◌, false, IfOk, not, map, option_map, string_bytes, if◌then◌else◌};
ghost use Rattle.schema_defs.specs.Layer.{property_at, is_given};
ghost use Rattle.json_value.specs.View.{kept_view};
ghost use Rattle.schema_types.specs.View.{schema_view, properties_view, maybe_view};
ghost use Rattle.convert_defs.specs.Owners.{state_of, default_of as default_in, may_be_null as may_be_null_of, property_fields as property_fields_of, outside_names as outside_names_of, outside_row as outside_row_of, is_empty};
ghost use Rattle.row_findings.specs.View.{state_view, field_view, outside_view};
ghost use Rattle.object_rows.specs.Parts.{field_of};

use crate::members::{is_property, is_required, keeps_rest};
use row_findings::{
    FieldRow, FieldState, Keyword, OutsideRow, Part, PartKind, Source, Steps, part_under,
};
use schema_types::{Schema, Setting};
use serde_json::Value;
use std::alloc::{AllocError, Global};
use std::collections::{BTreeMap, BTreeSet};

fn default_of(schema: &Schema) -> Option<&Value>
    ensures { option_map (λ v. kept_view v.now) result ≡ default_in (schema_view schema.now) }
{
    match schema {
        Schema::Bool(_) => None,
        Schema::Object(object) => stated(&object.default),
    }
}

fn stated(default: &Option<Value>) -> Option<&Value>
    ensures { option_map (λ v. kept_view v.now) result ≡ option_map kept_view default.now }
{
    default.as_ref()
}

/// What a missing member means: a refusal where it is required, and else the default or nothing. It takes no memory.
pub fn field_state(is_required: bool, schema: &Schema) -> FieldState<'_>
    ensures { state_view result ≡ state_of is_required (default_in (schema_view schema.now)) }
{
    if is_required {
        FieldState::Required
    } else {
        stated_or_optional(default_of(schema))
    }
}

fn stated_or_optional<'d>(default: Option<&'d Value>) -> FieldState<'d>
    ensures { state_view result ≡ state_of false (option_map (λ v. kept_view v.now) default.entry) }
{
    match default {
        Some(value) => FieldState::Stated(value),
        None => FieldState::Optional,
    }
}

/// Whether null may stand for a member's absence. It takes no memory.
pub fn may_be_null(setting: Setting) -> bool
    ensures { result ≡ may_be_null_of setting }
{
    match setting {
        Setting::Strict => false,
        Setting::NullAbsent => true,
    }
}

fn property_field<'d>(
    setting: Setting,
    required: &BTreeSet<String>,
    name: &'d str,
    schema: &'d Schema,
) -> FieldRow<'d>
    ensures { field_view result ≡ field_of setting (map string_bytes required.now.keys) name.now (schema_view schema.now) }
{
    let is_required = is_required(required, name);
    FieldRow {
        name,
        part: Part {
            kind: PartKind::Child,
            steps: Steps::Named(Keyword::Properties, name),
            source: Source::Written(schema),
        },
        state: field_state(is_required, schema),
        nullable: may_be_null(setting) && !is_required,
    }
}

/// A field for each property.
pub fn property_fields<'d>(
    alloc: Global,
    setting: Setting,
    required: &BTreeSet<String>,
    properties: &'d BTreeMap<String, Schema>,
) -> Result<Vec<FieldRow<'d>>, AllocError>
    ensures { IfOk result (λ v. map field_view v.items ≡ property_fields_of setting (map string_bytes required.now.keys) (properties_view properties.now.entries)) }
{
    let mut fields = Vec::new(alloc);
    for (name, schema) in properties.iter() {
        fields.push(property_field(setting, required, name.as_str(), schema))?;
    }
    Ok(fields)
}

// The names, and then one that is no property's.
fn names_with<'d>(
    names: Vec<&'d str>,
    properties: &BTreeMap<String, Schema>,
    name: &'d str,
) -> Result<Vec<&'d str>, AllocError>
    ensures { IfOk result (λ v. map (λ n. n.now) v.items ≡ map (λ n. n.now) names.entry.items ++ (if not (is_given (property_at name.now (properties_view properties.now.entries))) then name.now ∷ [] else [])) }
{
    let mut names = names;
    if is_property(properties, name) {
        return Ok(names);
    }
    names.push(name)?;
    Ok(names)
}

// The names that are required and no property's.
#[tactic(auto, using(crate::proofs::Outside::outside_step))]
fn outside_names<'d>(
    alloc: Global,
    properties: &BTreeMap<String, Schema>,
    required: &'d BTreeSet<String>,
) -> Result<Vec<&'d str>, AllocError>
    ensures { IfOk result (λ v. map (λ n. n.now) v.items ≡ outside_names_of (properties_view properties.now.entries) (map string_bytes required.now.keys)) }
{
    let mut names = Vec::new(alloc);
    for name in required.iter() {
        names = names_with(names, properties, name.as_str())?;
    }
    Ok(names)
}

/// The members that no property names, where one of them is required or the rest is kept.
pub fn outside_row<'d>(
    alloc: Global,
    properties: &BTreeMap<String, Schema>,
    required: &'d BTreeSet<String>,
    rest: &'d Option<Box<Schema>>,
) -> Result<Option<OutsideRow<'d>>, AllocError>
    ensures { IfOk result (λ o. option_map outside_view o ≡ outside_row_of (outside_names_of (properties_view properties.now.entries) (map string_bytes required.now.keys)) (maybe_view rest.now)) }
{
    let names = outside_names(alloc, properties, required)?;
    Ok(outside_of(names, rest))
}

#[tactic(auto, using(crate::proofs::Outside::none_there))]
fn has_none(names: &Vec<&str>) -> bool
    ensures { result ≡ is_empty (map (λ n. n.now) names.now.items) }
{
    names.is_empty()
}

#[tactic(auto, using(crate::proofs::Outside::outside_seen))]
fn outside_of<'d>(names: Vec<&'d str>, rest: &'d Option<Box<Schema>>) -> Option<OutsideRow<'d>>
    ensures { option_map outside_view result ≡ outside_row_of (map (λ n. n.now) names.entry.items) (maybe_view rest.now) }
{
    let keeps_rest = keeps_rest(rest);
    if has_none(&names) && !keeps_rest {
        return None;
    }
    Some(OutsideRow {
        names,
        part: part_under(Keyword::AdditionalProperties, rest),
        keeps_rest,
    })
}
