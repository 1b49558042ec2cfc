//! What is left to merge of the keywords of members of two sides.
ghost use Rattle.std.specs.Prelude.{◌≡◌, ◌++◌, ◌||◌, [], Bool, IfOk, OnOk, map, string_bytes};
ghost use Rattle.std.specs.BTreeSet.{keys};
ghost use Rattle.schema_defs.specs.Schema.{Schema as SchemaOf, no_properties, the_schema};
ghost use Rattle.schema_types.specs.View.{maybe_view, members_view, properties_view, schema_view};
ghost use Rattle.merge_defs.specs.Outcome.{Outcome, answer, note_if as note_if_of};
ghost use Rattle.merge_defs.specs.Objects.{forgets_rest as forgets_rest_of, has_patterns as has_patterns_of, is_object_schema as is_object_schema_of, mixes_names as mixes_names_of, names_mix as names_mix_of, two_named, two_rests};
ghost use Rattle.merge_leaves.specs.Sizes.{merged_sizes_view};
ghost use Rattle.merge_parts.specs.View.{notes_view};
ghost use Rattle.merge_steps.specs.Ends.{Goes};
ghost use Rattle.merge_members.specs.Plans.{entries_then, maybe_members, member_outcome, members_outcome, rest_outcome};
ghost use Rattle.merge_members.specs.Sides.{absent_needed, absent_of, absent_rest, framed_outcome, patterns_in, properties_in_both};

use crate::entries::{Named, named_entries};
use crate::lookups::{has_more, has_unnamed, names_of_both, needs_more};
use crate::plan::{Entry, Frame, MemberPlan, Members, RestPlan};
use merge_leaves::{MergedSizes, joined_names};
use merge_parts::{MergeKind, MergeNote, Way, note_both_ways, note_if};
use merge_steps::Stop;
use schema_types::{ObjectValidation, Schema};
use std::alloc::{AllocError, Global};
use std::collections::{BTreeMap, BTreeSet};

// ---- names by pattern

fn has_patterns(patterns: &BTreeMap<String, Schema>, names: &Option<Box<Schema>>) -> bool
    ensures { result ≡ has_patterns_of (properties_view patterns.now.entries) (maybe_view names.now) }
{
    !patterns.is_empty() || names.is_some()
}

// Patterns of one side, and a property of the other that the side doesn't name.
fn mixes_names(
    properties: &BTreeMap<String, Schema>,
    patterns: &BTreeMap<String, Schema>,
    names: &Option<Box<Schema>>,
    others: &BTreeMap<String, Schema>,
) -> bool
    ensures { result ≡ mixes_names_of (properties_view properties.now.entries) (properties_view patterns.now.entries) (maybe_view names.now) (properties_view others.now.entries) }
{
    has_patterns(patterns, names) && has_unnamed(others, properties)
}

fn either_holds(first: bool, second: bool) -> bool
    ensures { result ≡ (first || second) }
{
    first || second
}

#[tactic(auto, using(crate::proofs::Parts::mixed))]
fn both_mix(first: &ObjectValidation, second: &ObjectValidation) -> bool
    ensures { result ≡ names_mix_of (members_view first.now) (members_view second.now) }
{
    let ahead = mixes_names(
        &first.properties,
        &first.pattern_properties,
        &first.property_names,
        &second.properties,
    );
    let behind = mixes_names(
        &second.properties,
        &second.pattern_properties,
        &second.property_names,
        &first.properties,
    );
    either_holds(ahead, behind)
}

/// Whether patterns of names of one side may bind a property of the other.
pub fn names_mix(first: &Option<ObjectValidation>, second: &Option<ObjectValidation>) -> bool
    ensures { result ≡ names_mix_of (maybe_members first.now) (maybe_members second.now) }
{
    match (first, second) {
        (Some(first), Some(second)) => both_mix(first, second),
        _ => false,
    }
}

// ---- null for an absent member

fn is_object_schema(rest: &Option<Box<Schema>>) -> bool
    ensures { result ≡ is_object_schema_of (maybe_view rest.now) }
{
    match rest {
        None => false,
        Some(rest) => is_object(rest),
    }
}

fn is_object(schema: &Schema) -> bool
    ensures { result ≡ is_object_schema_of (the_schema (schema_view schema.now)) }
{
    match schema {
        Schema::Bool(_) => false,
        Schema::Object(_) => true,
    }
}

fn forgets_rest(
    needed: &BTreeSet<String>,
    properties: &BTreeMap<String, Schema>,
    others: &BTreeMap<String, Schema>,
    rest: &Option<Box<Schema>>,
) -> bool
    ensures { result ≡ forgets_rest_of (map string_bytes (keys needed.now)) (properties_view properties.now.entries) (properties_view others.now.entries) (maybe_view rest.now) }
{
    is_object_schema(rest) && has_more(properties, others, needed)
}

#[tactic(auto, using(crate::proofs::Parts::needed_more))]
fn is_needed_more(first: &ObjectValidation, second: &ObjectValidation) -> bool
    ensures { result ≡ absent_needed (members_view first.now) (members_view second.now) }
{
    let ahead = needs_more(&first.required, &second.properties, &second.required);
    let behind = needs_more(&second.required, &first.properties, &first.required);
    either_holds(ahead, behind)
}

#[tactic(auto, using(crate::proofs::Parts::rest_forgotten))]
fn is_rest_forgotten(
    needed: &BTreeSet<String>,
    first: &ObjectValidation,
    second: &ObjectValidation,
) -> bool
    ensures { result ≡ absent_rest (map string_bytes (keys needed.now)) (members_view first.now) (members_view second.now) }
{
    let ahead = forgets_rest(
        needed,
        &first.properties,
        &second.properties,
        &second.additional_properties,
    );
    let behind = forgets_rest(
        needed,
        &second.properties,
        &first.properties,
        &first.additional_properties,
    );
    either_holds(ahead, behind)
}

fn note_absent(
    notes: &mut Vec<MergeNote>,
    has_nulls: bool,
    needed: &BTreeSet<String>,
    first: &ObjectValidation,
    second: &ObjectValidation,
) -> Result<(), AllocError>
    ensures { OnOk result (notes_view notes.new.items ≡ notes_view notes.old.items ++ note_if_of has_nulls (absent_of (map string_bytes (keys needed.now)) (members_view first.now) (members_view second.now))) }
{
    if !has_nulls {
        return Ok(());
    }
    note_if(
        notes,
        is_needed_more(first, second),
        Way::Narrowed,
        MergeKind::Absent,
    )?;
    note_if(
        notes,
        is_rest_forgotten(needed, first, second),
        Way::Widened,
        MergeKind::Absent,
    )?;
    Ok(())
}

// ---- what is left to merge

fn rest_plan(first: Option<Box<Schema>>, second: Option<Box<Schema>>) -> RestPlan
    ensures { (join : SchemaOf → SchemaOf → Outcome SchemaOf) → rest_outcome join result ≡ two_rests join (maybe_view first) (maybe_view second) }
{
    match (first, second) {
        (None, None) => RestPlan::Rest(None),
        (None, Some(other)) => RestPlan::Rest(Some(Box::into_inner(other))),
        (Some(rest), None) => RestPlan::Rest(Some(Box::into_inner(rest))),
        (Some(rest), Some(other)) => RestPlan::Rests(Box::into_inner(rest), Box::into_inner(other)),
    }
}

#[tactic(auto, using(crate::proofs::Parts::either_patterns))]
fn has_either_patterns(first: &ObjectValidation, second: &ObjectValidation) -> bool
    ensures { result ≡ patterns_in (members_view first.now) (members_view second.now) }
{
    let ahead = has_patterns(&first.pattern_properties, &first.property_names);
    let behind = has_patterns(&second.pattern_properties, &second.property_names);
    either_holds(ahead, behind)
}

#[tactic(auto, using(crate::proofs::Parts::entries_seen))]
fn entries_of(
    alloc: Global,
    has_nulls: bool,
    needed: &BTreeSet<String>,
    first: &ObjectValidation,
    second: &ObjectValidation,
) -> Result<Vec<Entry>, AllocError>
    ensures { IfOk result (λ v. (join : SchemaOf → SchemaOf → Outcome SchemaOf) (object_type closed : Bool) → entries_then join object_type closed v.items (answer [] no_properties) ≡ properties_in_both join (members_view first.now) (members_view second.now) has_nulls object_type closed (map string_bytes (keys needed.now))) }
{
    let names = names_of_both(alloc, &first.properties, &second.properties)?;
    let side = Named {
        properties: &first.properties,
        rest: &first.additional_properties,
    };
    let other = Named {
        properties: &second.properties,
        rest: &second.additional_properties,
    };
    let found = named_entries(alloc, &names, has_nulls, needed, &side, &other)?;
    Ok(found)
}

fn sizes_of(
    max_properties: Option<u32>,
    min_properties: Option<u32>,
    required: BTreeSet<String>,
) -> MergedSizes
    ensures { merged_sizes_view result ≡ record { max_properties = max_properties; min_properties = min_properties; required = map string_bytes (keys required) } }
{
    MergedSizes {
        max_properties,
        min_properties,
        required,
    }
}

fn members_of(
    is_object: bool,
    is_dropped: bool,
    entries: Vec<Entry>,
    first: ObjectValidation,
    second: ObjectValidation,
) -> Members
    ensures { (join : SchemaOf → SchemaOf → Outcome SchemaOf) → members_outcome join result ≡ framed_outcome join is_object is_dropped entries.items (members_view first) (members_view second) }
{
    let ObjectValidation {
        max_properties,
        min_properties,
        required,
        properties: _properties,
        pattern_properties: _patterns,
        additional_properties,
        property_names: _names,
    } = first;
    let ObjectValidation {
        max_properties: other_most,
        min_properties: other_least,
        required: other_required,
        properties: _other_properties,
        pattern_properties: _other_patterns,
        additional_properties: other_rest,
        property_names: _other_names,
    } = second;
    let rest = rest_plan(additional_properties, other_rest);
    let sizes = sizes_of(max_properties, min_properties, required);
    let others = sizes_of(other_most, other_least, other_required);
    Members {
        rest,
        entries,
        frame: Frame {
            sizes,
            others,
            is_object,
            is_dropped,
        },
    }
}

#[tactic(auto, using(merge_steps::proofs::Ending::memory_goes))]
fn both_members(
    alloc: Global,
    notes: &mut Vec<MergeNote>,
    has_nulls: bool,
    is_object: bool,
    first: ObjectValidation,
    second: ObjectValidation,
) -> Result<MemberPlan, Stop>
    ensures { (join : SchemaOf → SchemaOf → Outcome SchemaOf) → Goes (member_outcome join) (notes_view notes.old.items) (notes_view notes.new.items) (two_named join has_nulls is_object (members_view first) (members_view second)) result }
{
    let needed = joined_names(alloc, &first.required, &second.required)?;
    note_absent(notes, has_nulls, &needed, &first, &second)?;
    let is_dropped = has_either_patterns(&first, &second);
    note_both_ways(notes, is_dropped, MergeKind::Names)?;
    let entries = entries_of(alloc, has_nulls, &needed, &first, &second)?;
    let members = members_of(is_object, is_dropped, entries, first, second);
    Ok(MemberPlan::Named(members))
}

/// What is left to merge of the keywords of members of two sides, where `has_nulls` says that null may stand for an absent member, and
/// `is_object` that the merged type is object; where one side alone has some, nothing.
#[tactic(auto, using(crate::proofs::Endings::planned))]
pub fn two_members(
    alloc: Global,
    notes: &mut Vec<MergeNote>,
    has_nulls: bool,
    is_object: bool,
    first: Option<ObjectValidation>,
    second: Option<ObjectValidation>,
) -> Result<MemberPlan, Stop>
    ensures { (join : SchemaOf → SchemaOf → Outcome SchemaOf) → Goes (member_outcome join) (notes_view notes.old.items) (notes_view notes.new.items) (two_named join has_nulls is_object (maybe_members first) (maybe_members second)) result }
{
    match (first, second) {
        (None, second) => Ok(MemberPlan::Told(second)),
        (Some(first), None) => Ok(MemberPlan::Told(Some(first))),
        (Some(first), Some(second)) => {
            both_members(alloc, notes, has_nulls, is_object, first, second)
        }
    }
}
