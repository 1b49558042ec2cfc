//! The names of both sides, with what binds each.
ghost use Rattle.std.specs.Prelude.{◌≡◌, ◌&&◌, ◌||◌, not, [], map, Bool, IfOk, string_bytes};
ghost use Rattle.std.specs.BTreeSet.{keys};
ghost use Rattle.schema_defs.specs.Schema.{Properties, Schema as SchemaOf, no_properties, the_schema};
ghost use Rattle.schema_defs.specs.Layer.{property_at};
ghost use Rattle.schema_types.specs.View.{maybe_view, object_view, properties_view, schema_view, schemas_view};
ghost use Rattle.enum_defs.specs.Words.{is_name};
ghost use Rattle.merge_defs.specs.Outcome.{Outcome, and_then, answer};
ghost use Rattle.merge_defs.specs.Objects.{all_of_two as all_of_two_of, beside as beside_of, is_false as is_false_of, no_rest as no_rest_of, or_false, properties_of, put_property, schema_of_both, shuts_out as shuts_out_of, unsaid_at};
ghost use Rattle.merge_defs.specs.Members.{all_of};
ghost use Rattle.merge_members.specs.Plans.{bound_outcome, entry_then, entries_then, seen_schema};

use crate::lookups::{has_property, is_among, property};
use crate::plan::{Bound, Entry};
use schema_types::{Schema, SchemaObject, Subschemas, as_schema};
use std::alloc::{AllocError, Global};
use std::collections::{BTreeMap, BTreeSet};

/// A side: its properties, and what binds the names without one.
#[derive(Clone, Copy)]
pub(crate) struct Named<'m> {
    pub properties: &'m BTreeMap<String, Schema>,
    pub rest: &'m Option<Box<Schema>>,
}

// ---- one name

fn with_all_of(all: Vec<Schema>) -> SchemaObject
    ensures { object_view result ≡ all_of (schemas_view all.items) }
{
    SchemaObject {
        title: None,
        description: None,
        default: None,
        const_value: None,
        types: None,
        format: None,
        enum_values: None,
        subschemas: Some(Subschemas {
            all_of: Some(all),
            any_of: None,
            one_of: None,
            not: None,
            conditional: false,
        }),
        number: None,
        string: None,
        array: None,
        object: None,
        reference: None,
        walk: None,
    }
}

fn all_of_two(alloc: Global, first: &Schema, second: &Schema) -> Result<Schema, AllocError>
    ensures { IfOk result (λ s. schema_view s ≡ all_of_two_of (schema_view first.now) (schema_view second.now)) }
{
    let mut all = Vec::new(alloc);
    all.push(first.try_clone(alloc)?)?;
    all.push(second.try_clone(alloc)?)?;
    let boxed = Box::new(alloc, with_all_of(all))?;
    Ok(as_schema(boxed))
}

// A property of one side, beside what binds the rest of the other.
fn beside(alloc: Global, schema: &Schema, rest: &Option<Box<Schema>>) -> Result<Schema, AllocError>
    ensures { IfOk result (λ s. schema_view s ≡ beside_of (schema_view schema.now) (maybe_view rest.now)) }
{
    match rest {
        None => schema.try_clone(alloc),
        Some(rest) => beside_rest(alloc, schema, rest),
    }
}

fn beside_rest(alloc: Global, schema: &Schema, rest: &Schema) -> Result<Schema, AllocError>
    ensures { IfOk result (λ s. schema_view s ≡ beside_of (schema_view schema.now) (the_schema (schema_view rest.now))) }
{
    match rest {
        Schema::Bool(b) => {
            if *b {
                return schema.try_clone(alloc);
            }
            Ok(Schema::Bool(false))
        }
        Schema::Object(_) => all_of_two(alloc, rest, schema),
    }
}

fn alone(alloc: Global, schema: &Schema, rest: &Option<Box<Schema>>) -> Result<Bound, AllocError>
    ensures { IfOk result (λ b. (join : SchemaOf → SchemaOf → Outcome SchemaOf) → bound_outcome join b ≡ answer [] (beside_of (schema_view schema.now) (maybe_view rest.now))) }
{
    let schema = beside(alloc, schema, rest)?;
    Ok(Bound::Alone(schema))
}

/// Two schemas that are merged, or of which the second is taken away from the first.
pub fn bound_by_both(alloc: Global, schema: &Schema, other: &Schema) -> Result<Bound, AllocError>
    ensures { IfOk result (λ b. (join : SchemaOf → SchemaOf → Outcome SchemaOf) → bound_outcome join b ≡ or_false join (schema_view schema.now) (schema_view other.now)) }
{
    let schema = schema.try_clone(alloc)?;
    let other = other.try_clone(alloc)?;
    Ok(Bound::Both(schema, other))
}

// The properties of a name, and what binds the names without one.
fn bound_by(
    alloc: Global,
    first: Option<&Schema>,
    first_rest: &Option<Box<Schema>>,
    second: Option<&Schema>,
    second_rest: &Option<Box<Schema>>,
) -> Result<Bound, AllocError>
    ensures { IfOk result (λ b. (join : SchemaOf → SchemaOf → Outcome SchemaOf) → bound_outcome join b ≡ schema_of_both join (seen_schema first.entry) (maybe_view first_rest.now) (seen_schema second.entry) (maybe_view second_rest.now)) }
{
    match (first, second) {
        (None, None) => Ok(Bound::Alone(Schema::Bool(true))),
        (Some(schema), None) => alone(alloc, schema, second_rest),
        (None, Some(schema)) => alone(alloc, schema, first_rest),
        (Some(schema), Some(other)) => bound_by_both(alloc, schema, other),
    }
}

#[tactic(auto, using(crate::proofs::Entering::bound_so))]
fn bound_of(
    alloc: Global,
    name: &str,
    first: &Named<'_>,
    second: &Named<'_>,
) -> Result<Bound, AllocError>
    ensures { IfOk result (λ b. (join : SchemaOf → SchemaOf → Outcome SchemaOf) → bound_outcome join b ≡ schema_of_both join (property_at name.now (properties_view first.now.properties.now.entries)) (maybe_view first.now.rest.now) (property_at name.now (properties_view second.now.properties.now.entries)) (maybe_view second.now.rest.now)) }
{
    let one = property(first.properties, name);
    let other = property(second.properties, name);
    bound_by(alloc, one, first.rest, other, second.rest)
}

/// Whether nothing but its properties is admitted. It takes no memory.
pub fn no_rest(rest: &Option<Box<Schema>>) -> bool
    ensures { result ≡ no_rest_of (maybe_view rest.now) }
{
    match rest {
        None => false,
        Some(rest) => is_false(rest),
    }
}

pub(crate) fn is_false(schema: &Schema) -> bool
    ensures { result ≡ is_false_of (schema_view schema.now) }
{
    match schema {
        Schema::Bool(b) => !*b,
        Schema::Object(_) => false,
    }
}

fn shuts_out(name: &str, side: &Named<'_>) -> bool
    ensures { result ≡ shuts_out_of name.now (properties_view side.now.properties.now.entries) (maybe_view side.now.rest.now) }
{
    !has_property(side.properties, name) && no_rest(side.rest)
}

fn is_unsaid(has_nulls: bool, name: &str, first: &Named<'_>, second: &Named<'_>) -> bool
    ensures { result ≡ (has_nulls && not (shuts_out_of name.now (properties_view first.now.properties.now.entries) (maybe_view first.now.rest.now) || shuts_out_of name.now (properties_view second.now.properties.now.entries) (maybe_view second.now.rest.now))) }
{
    has_nulls && !(shuts_out(name, first) || shuts_out(name, second))
}

#[tactic(auto, using(crate::proofs::Entering::entered))]
fn entry(
    alloc: Global,
    name: &str,
    has_nulls: bool,
    needed: &BTreeSet<String>,
    first: &Named<'_>,
    second: &Named<'_>,
) -> Result<Entry, AllocError>
    ensures { IfOk result (λ e. (join : SchemaOf → SchemaOf → Outcome SchemaOf) (object_type closed : Bool) (after : Outcome Properties) → entry_then join object_type closed e after ≡ and_then (schema_of_both join (property_at name.now (properties_view first.now.properties.now.entries)) (maybe_view first.now.rest.now) (property_at name.now (properties_view second.now.properties.now.entries)) (maybe_view second.now.rest.now)) (λ s. put_property object_type (is_name name.now (map string_bytes (keys needed.now))) closed (unsaid_at has_nulls (properties_view first.now.properties.now.entries) (maybe_view first.now.rest.now) (properties_view second.now.properties.now.entries) (maybe_view second.now.rest.now) name.now) name.now s after)) }
{
    let bound = bound_of(alloc, name, first, second)?;
    let key = String::from_str(alloc, name)?;
    let is_needed = is_among(needed, name);
    let is_unsaid = is_unsaid(has_nulls, name, first, second);
    Ok(Entry {
        name: key,
        is_needed,
        is_unsaid,
        bound,
    })
}

// ---- all names

/// The names, each with what binds it.
#[tactic(auto, using(crate::proofs::Entering::none_more))]
pub(crate) fn named_entries(
    alloc: Global,
    names: &BTreeSet<String>,
    has_nulls: bool,
    needed: &BTreeSet<String>,
    first: &Named<'_>,
    second: &Named<'_>,
) -> Result<Vec<Entry>, AllocError>
    ensures { IfOk result (λ v. (join : SchemaOf → SchemaOf → Outcome SchemaOf) (object_type closed : Bool) → entries_then join object_type closed v.items (answer [] no_properties) ≡ properties_of join (properties_view first.now.properties.now.entries) (maybe_view first.now.rest.now) (properties_view second.now.properties.now.entries) (maybe_view second.now.rest.now) has_nulls object_type closed (map string_bytes (keys needed.now)) (map string_bytes (keys names.now))) }
{
    let mut entries = Vec::with_capacity(alloc, names.len())?;
    for name in names.iter() {
        let one = entry(alloc, name.as_str(), has_nulls, needed, first, second)?;
        entries.push(one)?;
    }
    Ok(entries)
}
