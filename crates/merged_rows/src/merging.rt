//! What a row merges.
ghost use Rattle.std.specs.Prelude.{◌≡◌, None, false, IfErr, IfOk, map, option_map};
ghost use Rattle.schema_defs.specs.Admits.{target, target_location};
ghost use Rattle.schema_defs.specs.Schema.{schemas};
ghost use Rattle.schema_tree.specs.Document.{view as document_seen};
ghost use Rattle.schema_types.specs.View.{schema_view, schemas_view};
ghost use Rattle.convert_walks.specs.Merging.{carried_parts, merged_at, with_target};
ghost use Rattle.merge_parts.specs.Steps.{Faults, Steps as StepsOf};
ghost use Rattle.merge_parts.specs.View.{notes_view};
ghost use Rattle.merge_walks.specs.Carried.{carried as carried_of, on_walk, to_target as to_target_of};
ghost use Rattle.merge_walks.specs.Walked.{join_by_walks, merge_by_walks, with_by_walks};
ghost use Rattle.row_findings.specs.Given.{source_view};
ghost use Rattle.row_findings.specs.View.{part_view};
ghost use Rattle.merged_rows.specs.Rows.{begins_made, carried_part as carried_part_of, is_made_part as is_made_part_of, merged_without, subschemas_in, without_reference as without_reference_of, without_subschemas};
ghost use Rattle.merged_rows.specs.Starts.{is_boolean as is_boolean_of, spot_of, walk_by};

use crate::owning::{carried, owned, split, without_reference};
use crate::parts::place_of_part;
use crate::places::walk_of;
use crate::seen::{is_boolean, reference_in};
use crate::spots::start_at;
use crate::start::Start;
use merge_cycle::{Budget, join_schemas, merge_schemas, with_subschemas};
use merge_parts::{MergeFault, MergeNote};
use merge_walked::{to_target, walked};
use row_findings::{Part, PartKind, Source, Steps};
use schema_tree::Document;
use schema_types::Schema;
use std::alloc::{AllocError, Global};

/// What the merges of rows go by: the document, how many steps a walk may have, how many levels there are, and how much
/// may still be merged.
#[derive(Clone, Copy)]
pub struct Merging<'d> {
    pub alloc: Global,
    pub document: &'d Document,
    pub most: u32,
    pub levels: u32,
    pub budget: &'d Budget,
}

// A schema that stands at the end of a trail, as merges see it.
fn walked_source(
    alloc: Global,
    start: &Start,
    trail: &Vec<Steps<'_>>,
    source: &Source<'_>,
) -> Result<Schema, AllocError>
    ensures { IfOk result (λ s. schema_view s ≡ carried_of (walk_by start.now.walk trail.now.items) (source_view source.now)) }
{
    let schema = owned(alloc, source)?;
    let walk = walk_of(alloc, start, trail)?;
    Ok(carried(schema, walk))
}

// The schema without its reference, as merges see it.
fn walked_rest(
    alloc: Global,
    start: &Start,
    trail: &Vec<Steps<'_>>,
    source: &Source<'_>,
) -> Result<Schema, AllocError>
    ensures { IfOk result (λ s. schema_view s ≡ carried_of (walk_by start.now.walk trail.now.items) (without_reference_of (source_view source.now))) }
{
    let schema = owned(alloc, source)?;
    let walk = walk_of(alloc, start, trail)?;
    Ok(carried(without_reference(schema), walk))
}

// The target of a reference that stands at the end of a trail, on the walk to it.
fn walked_target(
    merging: &Merging<'_>,
    start: &Start,
    trail: &Vec<Steps<'_>>,
    reference: &str,
    target: &Schema,
) -> Result<Schema, AllocError>
    ensures { IfOk result (λ s. schema_view s ≡ on_walk (to_target_of (walk_by start.now.walk trail.now.items) (target_location (document_seen merging.now.document.now) reference.now)) (schema_view target.now)) }
{
    let place = merging
        .document
        .parts()
        .target_location(merging.alloc, reference)?;
    let from = walk_of(merging.alloc, start, trail)?;
    let walk = to_target(merging.alloc, &from, &place)?;
    let copy = target.try_clone(merging.alloc)?;
    Ok(walked(copy, walk))
}

// The target of the reference, and the rest.
fn merge_with(
    merging: &Merging<'_>,
    notes: &mut Vec<MergeNote>,
    start: &Start,
    trail: &Vec<Steps<'_>>,
    source: &Source<'_>,
    reference: &str,
    target: &Schema,
) -> Result<Option<Schema>, MergeFault>
    ensures found { IfOk result (λ o. StepsOf (notes_view notes.old.items) (notes_view notes.new.items) (join_by_walks (document_seen merging.now.document.now) merging.now.most merging.now.levels (on_walk (to_target_of (walk_by start.now.walk trail.now.items) (target_location (document_seen merging.now.document.now) reference.now)) (schema_view target.now)) (carried_of (walk_by start.now.walk trail.now.items) (without_reference_of (source_view source.now)))) (option_map schema_view o)) }
    ensures refused { IfErr result (λ e. Faults e (join_by_walks (document_seen merging.now.document.now) merging.now.most merging.now.levels (on_walk (to_target_of (walk_by start.now.walk trail.now.items) (target_location (document_seen merging.now.document.now) reference.now)) (schema_view target.now)) (carried_of (walk_by start.now.walk trail.now.items) (without_reference_of (source_view source.now))))) }
{
    let first = walked_target(merging, start, trail, reference, target)?;
    let second = walked_rest(merging.alloc, start, trail, source)?;
    let found = join_schemas(
        merging.alloc,
        merging.document.parts(),
        merging.most as usize,
        merging.levels,
        merging.budget,
        notes,
        first,
        second,
    )?;
    Ok(found)
}

/// The merge of what the reference leads to and of the schema without it; nothing where it leads nowhere. The notes are written behind those
/// before them, as in all that follows.
#[tactic(auto, using(crate::proofs::Merges::nowhere, crate::proofs::Merges::at_target, crate::proofs::Merges::refused_there))]
pub fn merged_target(
    merging: &Merging<'_>,
    notes: &mut Vec<MergeNote>,
    start: &Start,
    trail: &Vec<Steps<'_>>,
    source: &Source<'_>,
    reference: &str,
) -> Result<Option<Schema>, MergeFault>
    ensures found { IfOk result (λ o. StepsOf (notes_view notes.old.items) (notes_view notes.new.items) (with_target (document_seen merging.now.document.now) merging.now.most merging.now.levels (spot_of start.now trail.now.items None) reference.now (target (document_seen merging.now.document.now) reference.now) (carried_of (walk_by start.now.walk trail.now.items) (without_reference_of (source_view source.now)))) (option_map schema_view o)) }
    ensures refused { IfErr result (λ e. Faults e (with_target (document_seen merging.now.document.now) merging.now.most merging.now.levels (spot_of start.now trail.now.items None) reference.now (target (document_seen merging.now.document.now) reference.now) (carried_of (walk_by start.now.walk trail.now.items) (without_reference_of (source_view source.now))))) }
{
    match merging.document.target(reference) {
        None => Ok(None),
        Some(target) => {
            let found = merge_with(merging, notes, start, trail, source, reference, target)?;
            Ok(found)
        }
    }
}

/// The merge of the schema without its subschemas, and of those.
pub fn merged_body(
    merging: &Merging<'_>,
    notes: &mut Vec<MergeNote>,
    start: &Start,
    trail: &Vec<Steps<'_>>,
    source: &Source<'_>,
) -> Result<Option<Schema>, MergeFault>
    ensures found { IfOk result (λ o. StepsOf (notes_view notes.old.items) (notes_view notes.new.items) (with_by_walks (document_seen merging.now.document.now) merging.now.most merging.now.levels (carried_of (walk_by start.now.walk trail.now.items) (without_subschemas (source_view source.now))) (subschemas_in (source_view source.now))) (option_map schema_view o)) }
    ensures refused { IfErr result (λ e. Faults e (with_by_walks (document_seen merging.now.document.now) merging.now.most merging.now.levels (carried_of (walk_by start.now.walk trail.now.items) (without_subschemas (source_view source.now))) (subschemas_in (source_view source.now)))) }
{
    let schema = owned(merging.alloc, source)?;
    let walk = walk_of(merging.alloc, start, trail)?;
    let (rest, subschemas) = split(schema);
    let body = carried(rest, walk);
    let found = with_subschemas(
        merging.alloc,
        merging.document.parts(),
        merging.most as usize,
        merging.levels,
        merging.budget,
        notes,
        &body,
        &subschemas,
    )?;
    Ok(found)
}

// A part of the row, as merges see it.
fn carried_part<'d>(
    alloc: Global,
    start: &Start,
    trail: &Vec<Steps<'d>>,
    part: &Part<'d>,
) -> Result<Schema, AllocError>
    ensures { IfOk result (λ s. schema_view s ≡ carried_part_of (spot_of start.now trail.now.items None) (part_view part.now)) }
{
    let none = Vec::new(alloc);
    let place = place_of_part(alloc, start, trail, &none, part)?;
    let schema = walked_source(alloc, start_at(start, &place), &place.trail, &part.source)?;
    Ok(schema)
}

fn carried_all<'d>(
    alloc: Global,
    start: &Start,
    trail: &Vec<Steps<'d>>,
    parts: &Vec<Part<'d>>,
) -> Result<Vec<Schema>, AllocError>
    ensures { IfOk result (λ v. schemas (schemas_view v.items) ≡ carried_parts (spot_of start.now trail.now.items None) (map part_view parts.now.items)) }
{
    let mut all = Vec::with_capacity(alloc, parts.len())?;
    for part in parts {
        let schema = carried_part(alloc, start, trail, part)?;
        all.push(schema)?;
    }
    Ok(all)
}

/// The merge of the parts of a row.
pub fn merged_members<'d>(
    merging: &Merging<'_>,
    notes: &mut Vec<MergeNote>,
    start: &Start,
    trail: &Vec<Steps<'d>>,
    parts: &Vec<Part<'d>>,
) -> Result<Option<Schema>, MergeFault>
    ensures found { IfOk result (λ o. StepsOf (notes_view notes.old.items) (notes_view notes.new.items) (merge_by_walks (document_seen merging.now.document.now) merging.now.most merging.now.levels (carried_parts (spot_of start.now trail.now.items None) (map part_view parts.now.items))) (option_map schema_view o)) }
    ensures refused { IfErr result (λ e. Faults e (merge_by_walks (document_seen merging.now.document.now) merging.now.most merging.now.levels (carried_parts (spot_of start.now trail.now.items None) (map part_view parts.now.items)))) }
{
    let all = carried_all(merging.alloc, start, trail, parts)?;
    let found = merge_schemas(
        merging.alloc,
        merging.document.parts(),
        merging.most as usize,
        merging.levels,
        merging.budget,
        notes,
        all,
    )?;
    Ok(found)
}

// The first part is made where the others are subschemas of it.
fn is_body(parts: &Vec<Part<'_>>) -> bool
    ensures { result ≡ begins_made (map part_view parts.now.items) }
{
    match parts.first() {
        None => false,
        Some(part) => is_made_part(part),
    }
}

fn is_made_part(part: &Part<'_>) -> bool
    ensures { result ≡ is_made_part_of (part_view part.now) }
{
    match part.kind {
        PartKind::Child => false,
        PartKind::OfBranch => false,
        PartKind::Lone => false,
        PartKind::Made => true,
    }
}

#[tactic(auto, using(crate::proofs::Merges::body_first, crate::proofs::Merges::body_refused, crate::proofs::Merges::members_first, crate::proofs::Merges::members_refused))]
fn merged_parts<'d>(
    merging: &Merging<'_>,
    notes: &mut Vec<MergeNote>,
    start: &Start,
    trail: &Vec<Steps<'d>>,
    source: &Source<'d>,
    parts: &Vec<Part<'d>>,
) -> Result<Option<Schema>, MergeFault>
    ensures found { IfOk result (λ o. StepsOf (notes_view notes.old.items) (notes_view notes.new.items) (merged_without (document_seen merging.now.document.now) merging.now.most merging.now.levels (spot_of start.now trail.now.items None) (source_view source.now) (map part_view parts.now.items)) (option_map schema_view o)) }
    ensures refused { IfErr result (λ e. Faults e (merged_without (document_seen merging.now.document.now) merging.now.most merging.now.levels (spot_of start.now trail.now.items None) (source_view source.now) (map part_view parts.now.items))) }
{
    if is_body(parts) {
        let found = merged_body(merging, notes, start, trail, source)?;
        return Ok(found);
    }
    let found = merged_members(merging, notes, start, trail, parts)?;
    Ok(found)
}

#[tactic(auto, using(crate::proofs::Merges::by_target, crate::proofs::Merges::by_target_refused, crate::proofs::Merges::by_parts, crate::proofs::Merges::by_parts_refused))]
fn merged_object<'d>(
    merging: &Merging<'_>,
    notes: &mut Vec<MergeNote>,
    start: &Start,
    trail: &Vec<Steps<'d>>,
    source: &Source<'d>,
    parts: &Vec<Part<'d>>,
) -> Result<Option<Schema>, MergeFault>
    requires { is_boolean_of (source_view source.now) ≡ false }
    ensures found { IfOk result (λ o. StepsOf (notes_view notes.old.items) (notes_view notes.new.items) (merged_at (document_seen merging.now.document.now) merging.now.most merging.now.levels (spot_of start.now trail.now.items None) (source_view source.now) (map part_view parts.now.items)) (option_map schema_view o)) }
    ensures refused { IfErr result (λ e. Faults e (merged_at (document_seen merging.now.document.now) merging.now.most merging.now.levels (spot_of start.now trail.now.items None) (source_view source.now) (map part_view parts.now.items))) }
{
    match reference_in(source) {
        Some(reference) => {
            let found = merged_target(merging, notes, start, trail, source, reference)?;
            Ok(found)
        }
        None => {
            let found = merged_parts(merging, notes, start, trail, source, parts)?;
            Ok(found)
        }
    }
}

/// The merge of a row that merges these parts, at the end of a trail: a schema, or nothing for never.
#[tactic(auto, using(crate::proofs::Merges::of_boolean))]
pub fn merge_row<'d>(
    merging: &Merging<'_>,
    notes: &mut Vec<MergeNote>,
    start: &Start,
    trail: &Vec<Steps<'d>>,
    source: &Source<'d>,
    parts: &Vec<Part<'d>>,
) -> Result<Option<Schema>, MergeFault>
    ensures found { IfOk result (λ o. StepsOf (notes_view notes.old.items) (notes_view notes.new.items) (merged_at (document_seen merging.now.document.now) merging.now.most merging.now.levels (spot_of start.now trail.now.items None) (source_view source.now) (map part_view parts.now.items)) (option_map schema_view o)) }
    ensures refused { IfErr result (λ e. Faults e (merged_at (document_seen merging.now.document.now) merging.now.most merging.now.levels (spot_of start.now trail.now.items None) (source_view source.now) (map part_view parts.now.items))) }
{
    if is_boolean(source) {
        return Ok(None);
    }
    let found = merged_object(merging, notes, start, trail, source, parts)?;
    Ok(found)
}
