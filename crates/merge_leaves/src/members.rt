//! Merging the sizes and the required names of members.
ghost use Rattle.std.specs.Prelude.{◌≡◌, ◌&&◌, IfOk, Some, map, option_map, string_bytes};
ghost use Rattle.std.specs.BTreeSet.{keys};
ghost use Rattle.schema_types.specs.View.{maybe_view, members_view, named_of, properties_view};
ghost use Rattle.merge_defs.specs.Objects.{all_names, kept_named as kept_named_of, no_member_rules, two_member_rules};
ghost use Rattle.merge_parts.specs.View.{notes_view};
ghost use Rattle.merge_parts.specs.Steps.{Steps};
ghost use Rattle.merge_leaves.specs.Sizes.{member_sizes_view, merged_sizes_view, holds_no_schema as holds_no_schema_of, is_missing as is_missing_of, names_none as names_none_of, rules_of_named, says_nothing_of_named};

use crate::names::{push_names, rising_names};
use crate::sizes::{greatest, least, sizes_cross};
use merge_parts::{MergeKind, MergeNote, never_unless};
use schema_types::{ObjectValidation, Schema};
use std::alloc::{AllocError, Global};
use std::collections::{BTreeMap, BTreeSet};

/// The keywords of members that hold no schema.
#[derive(Clone, Copy)]
pub struct MemberSizes<'m> {
    pub max_properties: Option<u32>,
    pub min_properties: Option<u32>,
    pub required: &'m BTreeSet<String>,
}

/// The same of both sides.
#[derive(Drop)]
pub struct MergedSizes {
    pub max_properties: Option<u32>,
    pub min_properties: Option<u32>,
    pub required: BTreeSet<String>,
}

/// Those of a side.
pub fn member_sizes(members: &ObjectValidation) -> MemberSizes<'_>
    ensures { rules_of_named (members_view members.now) ≡ Some (member_sizes_view result) }
{
    MemberSizes {
        max_properties: members.max_properties,
        min_properties: members.min_properties,
        required: &members.required,
    }
}

/// The names of both sets, rising. Fails only for want of memory.
#[tactic(auto, using(crate::proofs::Rising::all_of_two))]
pub fn joined_names(
    alloc: Global,
    first: &BTreeSet<String>,
    second: &BTreeSet<String>,
) -> Result<BTreeSet<String>, AllocError>
    ensures { IfOk result (λ found. map string_bytes (keys found) ≡ all_names (map string_bytes (keys first.now)) (map string_bytes (keys second.now))) }
{
    let mut names = Vec::new(alloc);
    push_names(&mut names, first)?;
    push_names(&mut names, second)?;
    let found = rising_names(alloc, names)?;
    Ok(found)
}

/// The sizes and the required names of both sides, or never; `is_object` says that the merged type is object.
pub fn two_member_sizes(
    alloc: Global,
    notes: &mut Vec<MergeNote>,
    is_object: bool,
    first: &MemberSizes<'_>,
    second: &MemberSizes<'_>,
) -> Result<Option<MergedSizes>, AllocError>
    ensures { IfOk result (λ o. Steps (notes_view notes.old.items) (notes_view notes.new.items) (two_member_rules is_object (member_sizes_view first.now) (member_sizes_view second.now)) (option_map merged_sizes_view o)) }
{
    let max_properties = least(first.max_properties, second.max_properties);
    let min_properties = greatest(first.min_properties, second.min_properties);
    if sizes_cross(min_properties, max_properties) {
        never_unless(notes, is_object, MergeKind::Clash)?;
        return Ok(None);
    }
    let required = joined_names(alloc, first.required, second.required)?;
    Ok(Some(MergedSizes {
        max_properties,
        min_properties,
        required,
    }))
}

fn names_none(properties: &BTreeMap<String, Schema>) -> bool
    ensures { result ≡ names_none_of (properties_view properties.now.entries) }
{
    properties.is_empty()
}

fn is_missing(schema: &Option<Box<Schema>>) -> bool
    ensures { result ≡ is_missing_of (maybe_view schema.now) }
{
    schema.is_none()
}

/// Whether the keywords of members hold no schema. It takes no memory.
#[tactic(auto, using(crate::proofs::Seen::held_parts))]
pub fn holds_no_schema(members: &ObjectValidation) -> bool
    ensures { result ≡ holds_no_schema_of (members_view members.now) }
{
    let properties = names_none(&members.properties);
    let patterns = names_none(&members.pattern_properties);
    let rest = is_missing(&members.additional_properties);
    let names = is_missing(&members.property_names);
    all_hold(properties, patterns, rest, names)
}

fn all_hold(first: bool, second: bool, third: bool, fourth: bool) -> bool
    ensures { result ≡ (first && (second && (third && fourth))) }
{
    first && second && third && fourth
}

fn has_no_size(sizes: &MemberSizes<'_>) -> bool
    ensures { result ≡ no_member_rules (member_sizes_view sizes.now) }
{
    (sizes.max_properties.is_none() && sizes.min_properties.is_none()) && sizes.required.is_empty()
}

#[tactic(auto, using(crate::proofs::Seen::named_parts))]
fn says_nothing(members: &ObjectValidation) -> bool
    ensures { result ≡ says_nothing_of_named (members_view members.now) }
{
    let sizes = member_sizes(members);
    holds_no_schema(members) && has_no_size(&sizes)
}

/// The keywords of members, absent where none of them is left.
#[tactic(auto, using(crate::proofs::Seen::named_kept))]
pub fn kept_named(members: ObjectValidation) -> Option<ObjectValidation>
    ensures { named_of (option_map members_view result) ≡ kept_named_of (members_view members) }
{
    if says_nothing(&members) {
        return None;
    }
    Some(members)
}
