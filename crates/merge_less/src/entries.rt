//! The names of both sides, with what is left at each.
ghost use Rattle.std.specs.Prelude.{◌≡◌, [], true, false, map, IfOk, string_bytes};
ghost use Rattle.std.specs.BTreeSet.{keys};
ghost use Rattle.schema_defs.specs.Schema.{Properties, Schema as SchemaOf, no_properties, no_schema, the_schema};
ghost use Rattle.schema_defs.specs.Layer.{property_at};
ghost use Rattle.schema_types.specs.View.{members_view, properties_view, schema_view};
ghost use Rattle.enum_defs.specs.Words.{is_name, names_of};
ghost use Rattle.merge_defs.specs.Outcome.{Outcome, answer, mapped};
ghost use Rattle.merge_defs.specs.Objects.{all_names};
ghost use Rattle.merge_defs.specs.Less.{less_name, less_named};
ghost use Rattle.merge_members.specs.Plans.{bound_outcome, entries_then, entry_then, maybe_members, seen_schema};
ghost use Rattle.merge_less.specs.Names.{left_then, names_left};
ghost use Rattle.merge_less.specs.Taking.{putting};

use merge_leaves::{push_names, rising_names};
use merge_members::{Bound, Entry, bound_by_both, is_among, property, push_properties};
use schema_types::{ObjectValidation, Schema};
use std::alloc::{AllocError, Global};
use std::collections::{BTreeMap, BTreeSet};

/// A side: its properties, and the names that it requires.
#[derive(Clone, Copy)]
struct Side<'m> {
    properties: &'m BTreeMap<String, Schema>,
    required: &'m BTreeSet<String>,
}

// ---- one name

// A property of the first side alone.
fn alone(alloc: Global, is_needed: bool, schema: &Schema) -> Result<Bound, AllocError>
    ensures { IfOk result (λ b. (less : SchemaOf → SchemaOf → Outcome SchemaOf) → bound_outcome less b ≡ less_name less is_needed (the_schema (schema_view schema.now)) no_schema) }
{
    if is_needed {
        return Ok(Bound::Alone(Schema::Bool(false)));
    }
    let schema = schema.try_clone(alloc)?;
    Ok(Bound::Alone(schema))
}

#[tactic(auto, using(crate::proofs::Naming::both_there, crate::proofs::Naming::none_there))]
fn bound_by(
    alloc: Global,
    is_needed: bool,
    first: Option<&Schema>,
    second: Option<&Schema>,
) -> Result<Bound, AllocError>
    ensures { IfOk result (λ b. (less : SchemaOf → SchemaOf → Outcome SchemaOf) → bound_outcome less b ≡ less_name less is_needed (seen_schema first.entry) (seen_schema second.entry)) }
{
    match (first, second) {
        (None, _) => Ok(Bound::Alone(Schema::Bool(false))),
        (Some(schema), None) => alone(alloc, is_needed, schema),
        (Some(schema), Some(taken)) => bound_by_both(alloc, schema, taken),
    }
}

#[tactic(auto, using(crate::proofs::Naming::bound_so))]
fn bound_of(
    alloc: Global,
    name: &str,
    first: &Side<'_>,
    second: &Side<'_>,
) -> Result<Bound, AllocError>
    ensures { IfOk result (λ b. (less : SchemaOf → SchemaOf → Outcome SchemaOf) → bound_outcome less b ≡ less_name less (is_name name.now (map string_bytes (keys second.now.required.now))) (property_at name.now (properties_view first.now.properties.now.entries)) (property_at name.now (properties_view second.now.properties.now.entries))) }
{
    let is_needed = is_among(second.required, name);
    let one = property(first.properties, name);
    let other = property(second.properties, name);
    bound_by(alloc, is_needed, one, other)
}

#[tactic(auto, using(crate::proofs::Naming::entered))]
fn entry(
    alloc: Global,
    name: &str,
    first: &Side<'_>,
    second: &Side<'_>,
) -> Result<Entry, AllocError>
    ensures { IfOk result (λ e. (less : SchemaOf → SchemaOf → Outcome SchemaOf) (after : Outcome Properties) → entry_then less true false e after ≡ left_then less (properties_view first.now.properties.now.entries) (properties_view second.now.properties.now.entries) (map string_bytes (keys first.now.required.now)) (map string_bytes (keys second.now.required.now)) name.now after) }
{
    let bound = bound_of(alloc, name, first, second)?;
    let key = String::from_str(alloc, name)?;
    let is_needed = is_among(first.required, name);
    Ok(Entry {
        name: key,
        is_needed,
        is_unsaid: false,
        bound,
    })
}

// ---- all names

#[tactic(auto, using(crate::proofs::Naming::none_more))]
fn named_entries(
    alloc: Global,
    names: &BTreeSet<String>,
    first: &Side<'_>,
    second: &Side<'_>,
) -> Result<Vec<Entry>, AllocError>
    ensures { IfOk result (λ v. (less : SchemaOf → SchemaOf → Outcome SchemaOf) → entries_then less true false v.items (answer [] no_properties) ≡ names_left less (properties_view first.now.properties.now.entries) (properties_view second.now.properties.now.entries) (map string_bytes (keys first.now.required.now)) (map string_bytes (keys second.now.required.now)) (map string_bytes (keys names.now))) }
{
    let mut entries = Vec::with_capacity(alloc, names.len())?;
    for name in names.iter() {
        let one = entry(alloc, name.as_str(), first, second)?;
        entries.push(one)?;
    }
    Ok(entries)
}

// The names of the properties, and those of the set.
#[tactic(auto, using(merge_leaves::proofs::Rising::all_of_two))]
fn names_with(
    alloc: Global,
    properties: &BTreeMap<String, Schema>,
    set: &BTreeSet<String>,
) -> Result<BTreeSet<String>, AllocError>
    ensures { IfOk result (λ found. map string_bytes (keys found) ≡ all_names (names_of (properties_view properties.now.entries)) (map string_bytes (keys set.now))) }
{
    let mut names = Vec::new(alloc);
    push_properties(&mut names, properties)?;
    push_names(&mut names, set)?;
    let found = rising_names(alloc, names)?;
    Ok(found)
}

// Both sides have keywords of members.
fn both_entries(
    alloc: Global,
    first: &ObjectValidation,
    second: &ObjectValidation,
) -> Result<Vec<Entry>, AllocError>
    ensures { IfOk result (λ v. (less : SchemaOf → SchemaOf → Outcome SchemaOf) → mapped (λ ps. putting ps (members_view first.now)) (entries_then less true false v.items (answer [] no_properties)) ≡ less_named less (members_view first.now) (members_view second.now)) }
{
    let inner = names_with(alloc, &second.properties, &second.required)?;
    let names = names_with(alloc, &first.properties, &inner)?;
    let side = Side {
        properties: &first.properties,
        required: &first.required,
    };
    let other = Side {
        properties: &second.properties,
        required: &second.required,
    };
    let found = named_entries(alloc, &names, &side, &other)?;
    Ok(found)
}

/// The names of both sides, with what is left at each; none where one side has no keywords of members.
#[tactic(auto, using(crate::proofs::Naming::nothing_left))]
pub(crate) fn entries_of(
    alloc: Global,
    first: &Option<ObjectValidation>,
    second: &Option<ObjectValidation>,
) -> Result<Vec<Entry>, AllocError>
    ensures { IfOk result (λ v. (less : SchemaOf → SchemaOf → Outcome SchemaOf) → mapped (λ ps. putting ps (maybe_members first.now)) (entries_then less true false v.items (answer [] no_properties)) ≡ less_named less (maybe_members first.now) (maybe_members second.now)) }
{
    match (first, second) {
        (None, _) => Ok(Vec::new(alloc)),
        (Some(_), None) => Ok(Vec::new(alloc)),
        (Some(first), Some(second)) => both_entries(alloc, first, second),
    }
}
