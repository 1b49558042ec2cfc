//! Keywords of lists and of objects that hold no schema.
ghost use Rattle.std.specs.Prelude.{◌≡◌, ◌||◌, ◌&&◌, not, bytes_eq, map, string_bytes, IfOk, IfErr, if◌then◌else◌};
ghost use Rattle.std.specs.List.{list_all, list_any};
ghost use Rattle.std.specs.Option.{option_copied};
ghost use Rattle.serde_json.specs.View.{items_view, members_view};
ghost use Rattle.json_value.specs.Value.{has_name as has_name_in, is_among as is_among_in, text as text_in};
ghost use Rattle.json_value.specs.View.{items_of, members_of, kept_view};
ghost use Rattle.schema_defs.specs.Layer.{all_distinct as all_distinct_in, if_given, property_at};
ghost use Rattle.schema_defs.specs.Admits.{counts_as_absent as counts_as_absent_in};
ghost use Rattle.schema_defs.specs.Schema.{no_schema, schemas as schemas_in};
ghost use Rattle.schema_types.specs.View.{maybe_view, members_view as members_seen, properties_view, schemas_view};
ghost use Rattle.schema_admission.specs.Judging.{maybe_seen, place_schema, rules_part};

use crate::plain::both;
use json_value::same;
use schema_texts::is_within;
use schema_tree::TextFault;
use schema_types::{ObjectValidation, Schema, Setting};
use serde_json::Value;
use serde_json::value::Map;
use std::alloc::Global;
use std::collections::{BTreeMap, BTreeSet};

fn is_among(value: &Value, values: &[Value]) -> bool
    ensures { result ≡ is_among_in (kept_view value.now) (items_of (items_view values.now)) }
{
    for other in values {
        if same(value, other) {
            return true;
        }
    }
    false
}

// Whether no two items are the same.
fn all_distinct(values: &Vec<Value>) -> bool
    ensures { result ≡ all_distinct_in (items_of (items_view values.now.items)) }
{
    let mut rest = values.as_slice();
    while let Some((first, others)) = rest.split_first() {
        if is_among(first, others) {
            return false;
        }
        rest = others;
    }
    true
}

fn has_name(members: &Map<String, Value>, name: &str) -> bool
    ensures { result ≡ has_name_in name.now (members_of (members_view members.now.entries)) }
{
    members.contains_key(name)
}

fn has_each(required: &BTreeSet<String>, members: &Map<String, Value>) -> bool
    ensures { result ≡ list_all (λ n. has_name_in n (members_of (members_view members.now.entries))) (map string_bytes required.now.keys) }
{
    for name in required.iter() {
        if !has_name(members, name) {
            return false;
        }
    }
    true
}

// Whether a member that has the value may stand for one that is absent.
#[tactic(auto, using(crate::proofs::Numbers::number_is_no_absence))]
fn counts_as_absent(setting: Setting, value: &Value) -> bool
    ensures { result ≡ counts_as_absent_in setting (kept_view value.now) }
{
    match (setting, value) {
        (Setting::NullAbsent, Value::Null) => true,
        _ => false,
    }
}

fn is_required(required: &BTreeSet<String>, name: &str) -> bool
    ensures { result ≡ list_any (bytes_eq name.now) (map string_bytes required.now.keys) }
{
    required.contains(name)
}

/// Whether `properties` passes over the member: it may stand for its absence, and isn't required.
pub fn is_passed_over(
    setting: Setting,
    required: &BTreeSet<String>,
    name: &str,
    value: &Value,
) -> bool
    ensures { result ≡ (counts_as_absent_in setting (kept_view value.now) && not (list_any (bytes_eq name.now) (map string_bytes required.now.keys))) }
{
    let absent = counts_as_absent(setting, value);
    let listed = is_required(required, name);
    both(absent, !listed)
}

fn property_of<'a>(properties: &'a BTreeMap<String, Schema>, name: &str) -> Option<&'a Schema>
    ensures { maybe_seen (option_copied result) ≡ property_at name.now (properties_view properties.now.entries) }
{
    properties.get(name)
}

/// The property of that name, unless it is passed over.
pub fn property_unless<'a>(
    passed: bool,
    properties: &'a BTreeMap<String, Schema>,
    name: &str,
) -> Option<&'a Schema>
    ensures { maybe_seen (option_copied result) ≡ (if passed then no_schema else property_at name.now (properties_view properties.now.entries)) }
{
    if passed {
        None
    } else {
        property_of(properties, name)
    }
}

/// Whether no two items are the same, where `unique` asks that.
pub fn is_distinct(unique: Option<bool>, values: &Vec<Value>) -> bool
    ensures { result ≡ if_given (λ u. not u || all_distinct_in (items_of (items_view values.now.items))) unique }
{
    match unique {
        Some(true) => all_distinct(values),
        _ => true,
    }
}

#[tactic(auto, using(crate::proofs::Turns::place_within, crate::proofs::Turns::place_past))]
/// The schema at a place: one of the list, and after the list `rest`.
pub fn at_place<'a>(
    schemas: &'a Vec<Schema>,
    rest: &'a Option<Box<Schema>>,
    place: usize,
) -> Option<&'a Schema>
    ensures { maybe_seen (option_copied result) ≡ place_schema (schemas_in (schemas_view schemas.now.items)) (maybe_view rest.now) place }
{
    if place < schemas.len() {
        Some(&schemas[place])
    } else {
        unless(false, rest)
    }
}

/// The schema, unless it is passed over.
pub fn unless(passed: bool, schema: &Option<Box<Schema>>) -> Option<&Schema>
    ensures { maybe_seen (option_copied result) ≡ (if passed then no_schema else maybe_view schema.now) }
{
    match schema {
        Some(schema) if !passed => Some(schema),
        _ => None,
    }
}

/// The text as a value.
pub fn text_value(alloc: Global, text: &str) -> Result<Value, TextFault>
    ensures answer { IfOk result (λ v. kept_view v ≡ text_in text.now) }
    ensures memory { IfErr result (λ e. e ≡ TextFault.Memory) }
{
    match String::from_str(alloc, text) {
        Ok(copy) => Ok(Value::String(copy)),
        Err(_) => Err(TextFault::Memory),
    }
}

/// The counts and the required names of an object.
pub fn rules_agree(object: &ObjectValidation, members: &Map<String, Value>) -> bool
    ensures { result ≡ rules_part (members_of (members_view members.now.entries)) (members_seen object.now) }
{
    let counted = is_within(object.min_properties, object.max_properties, members.len());
    let named = has_each(&object.required, members);
    both(counted, named)
}
