//! Two sides of a merge that are met.
ghost use Rattle.std.specs.Prelude.{◌≡◌, ◌||◌, IfOk, List, option_map};
ghost use Rattle.json_value.specs.Value.{null};
ghost use Rattle.schema_defs.specs.Admits.{counts_as_absent};
ghost use Rattle.schema_defs.specs.Schema.{Document as DocumentOf, Schema as SchemaOf};
ghost use Rattle.schema_types.specs.View.{object_view, schema_view};
ghost use Rattle.schema_types.specs.DocumentView.{document_view};
ghost use Rattle.merge_defs.specs.Outcome.{Note, Outcome, answer, mapped};
ghost use Rattle.merge_defs.specs.Members.{lost_sizes, refused};
ghost use Rattle.merge_defs.specs.Objects.{names_mix, unless_mixed};
ghost use Rattle.merge_defs.specs.Merge.{reference_to};
ghost use Rattle.merge_walks.specs.Made.{settled};
ghost use Rattle.merge_walks.specs.Walked.{walked_join};
ghost use Rattle.merge_parts.specs.View.{notes_view};
ghost use Rattle.merge_steps.specs.Ends.{Goes};
ghost use Rattle.schema_sameness.specs.Parts.{named_in, same_in};
ghost use Rattle.merge_sides.specs.Behind.{behind_two};
ghost use Rattle.merge_sides.specs.Leaves.{leaves_view};
ghost use Rattle.merge_sides.specs.Met.{bodies_outcome, met_outcome, referred_view};
ghost use Rattle.merge_sides.specs.Referring.{drops_beside, first_outcome, objects_outcome, other_outcome, refer_alike as refer_alike_of, reference_in, referred_in, referring_outcome, second_outcome, sides_outcome, walk_of_two};

use crate::leaves::leaves;
use crate::met::{Bodies, Leaves, Met, Referred};
use crate::opening::entered;
use crate::references::{asked, referred, referring};
use crate::refused::{refuse_names, refuse_subschemas};
use merge_leaves::is_only;
use merge_parts::{MergeKind, MergeNote, Way, note_if};
use merge_steps::Stop;
use merge_walked::{longer, own_walk};
use schema_sameness::drops_siblings;
use schema_types::{Document, InstanceType, Schema, SchemaObject, Setting, Walk, as_schema};
use std::alloc::{AllocError, Global};

// ---- two objects without references

/// Whether null may stand for an absent member.
pub fn has_nulls(document: &Document) -> bool
    ensures { result ≡ counts_as_absent (document_view document.now).setting null }
{
    match document.setting() {
        Setting::Strict => false,
        Setting::NullAbsent => true,
    }
}

fn walk_of_both(
    alloc: Global,
    first: &SchemaObject,
    second: &SchemaObject,
) -> Result<Walk, AllocError>
    ensures { IfOk result (λ w. w ≡ walk_of_two (object_view first.now) (object_view second.now)) }
{
    let walk = own_walk(alloc, &first.walk)?;
    let other = own_walk(alloc, &second.walk)?;
    let longer = longer(&walk, &other);
    longer.try_clone(alloc)
}

fn bodies_of(
    has_nulls: bool,
    walk: Walk,
    leaves: Leaves,
    first: SchemaObject,
    second: SchemaObject,
) -> Bodies
    ensures { (d : DocumentOf) (join less : SchemaOf → SchemaOf → Outcome SchemaOf) → bodies_outcome d join less result ≡ behind_two d join less walk has_nulls (object_view first) (object_view second) (leaves_view leaves) }
{
    let is_array = is_only(InstanceType::Array, &leaves.types);
    let is_object = is_only(InstanceType::Object, &leaves.types);
    Bodies {
        walk,
        is_array,
        is_object,
        has_nulls,
        leaves,
        array: first.array,
        other_array: second.array,
        members: first.object,
        other_members: second.object,
        subschemas: first.subschemas,
        other_subschemas: second.subschemas,
    }
}

#[tactic(auto, using(crate::proofs::Behinds::refuses_in))]
fn refuse_in(object: &SchemaObject) -> Result<(), Stop>
    ensures { (o : Outcome SchemaOf) (ns : List Note) → Goes (λ u. o) ns ns (refused (same_in (object_view object.now)) o) result }
{
    refuse_subschemas(&object.subschemas)
}

#[tactic(auto, using(crate::proofs::Behinds::mixes_in))]
fn refuse_mixed(first: &SchemaObject, second: &SchemaObject) -> Result<(), Stop>
    ensures { (o : Outcome SchemaOf) (ns : List Note) → Goes (λ u. o) ns ns (unless_mixed (names_mix (named_in (object_view first.now)) (named_in (object_view second.now))) o) result }
{
    refuse_names(&first.object, &second.object)
}

// The second side, and names of both.
#[tactic(auto, using(crate::proofs::Going::after_unit, crate::proofs::Going::off_unit))]
fn refuse_second(first: &SchemaObject, second: &SchemaObject) -> Result<(), Stop>
    ensures { (o : Outcome SchemaOf) (ns : List Note) → Goes (λ u. o) ns ns (refused (same_in (object_view second.now)) (unless_mixed (names_mix (named_in (object_view first.now)) (named_in (object_view second.now))) o)) result }
{
    refuse_in(second)?;
    refuse_mixed(first, second)
}

#[tactic(auto, using(crate::proofs::Going::after_unit, crate::proofs::Going::off_unit))]
fn refuse_both(first: &SchemaObject, second: &SchemaObject) -> Result<(), Stop>
    ensures { (o : Outcome SchemaOf) (ns : List Note) → Goes (λ u. o) ns ns (refused (same_in (object_view first.now)) (refused (same_in (object_view second.now)) (unless_mixed (names_mix (named_in (object_view first.now)) (named_in (object_view second.now))) o))) result }
{
    refuse_in(first)?;
    refuse_second(first, second)
}

// What is left behind the leaves.
fn behind_leaves(
    alloc: Global,
    document: &Document,
    leaves: Leaves,
    first: SchemaObject,
    second: SchemaObject,
) -> Result<Bodies, AllocError>
    ensures { IfOk result (λ b. (join less : SchemaOf → SchemaOf → Outcome SchemaOf) → bodies_outcome (document_view document.now) join less b ≡ behind_two (document_view document.now) join less (walk_of_two (object_view first) (object_view second)) (counts_as_absent (document_view document.now).setting null) (object_view first) (object_view second) (leaves_view leaves)) }
{
    let walk = walk_of_both(alloc, &first, &second)?;
    let nulls = has_nulls(document);
    Ok(bodies_of(nulls, walk, leaves, first, second))
}

fn bodies(
    alloc: Global,
    document: &Document,
    notes: &mut Vec<MergeNote>,
    first: SchemaObject,
    second: SchemaObject,
) -> Result<Met, Stop>
    ensures { (join less : SchemaOf → SchemaOf → Outcome SchemaOf) → Goes (met_outcome (document_view document.now) join less) (notes_view notes.old.items) (notes_view notes.new.items) (objects_outcome (document_view document.now) join less (object_view first) (object_view second)) result }
{
    refuse_both(&first, &second)?;
    let leaves = leaves(alloc, notes, &first, &second)?;
    let bodies = behind_leaves(alloc, document, leaves, first, second)?;
    Ok(Met::Objects(bodies))
}

// ---- references

fn same_references(first: &SchemaObject, second: &SchemaObject) -> bool
    ensures { result ≡ refer_alike_of (reference_in (object_view first.now)) (reference_in (object_view second.now)) }
{
    match (&first.reference, &second.reference) {
        (Some(reference), Some(other)) => reference.as_str() == other.as_str(),
        _ => false,
    }
}

fn refer_alike(first: &Box<SchemaObject>, second: &Box<SchemaObject>) -> bool
    ensures { result ≡ refer_alike_of (reference_in (object_view first.now.value)) (reference_in (object_view second.now.value)) }
{
    same_references(first, second)
}

fn drops(object: &Box<SchemaObject>) -> bool
    ensures { result ≡ drops_beside (object_view object.now.value) }
{
    drops_siblings(object)
}

fn either_drops(first: &Box<SchemaObject>, second: &Box<SchemaObject>) -> bool
    ensures { result ≡ (drops_beside (object_view first.now.value) || drops_beside (object_view second.now.value)) }
{
    drops(first) || drops(second)
}

fn reference_of(alloc: Global, object: &Box<SchemaObject>) -> Result<Option<Referred>, AllocError>
    ensures { IfOk result (λ o. option_map referred_view o ≡ referred_in (object_view object.now.value)) }
{
    referred(alloc, object)
}

// Both sides refer to the same: the reference is answered.
#[tactic(auto, using(merge_steps::proofs::Ending::memory_goes, crate::proofs::Meeting::told_reference))]
fn same_reference(
    alloc: Global,
    notes: &mut Vec<MergeNote>,
    is_lossy: bool,
    referred: Referred,
) -> Result<Met, Stop>
    ensures { (d : DocumentOf) (join less : SchemaOf → SchemaOf → Outcome SchemaOf) → Goes (met_outcome d join less) (notes_view notes.old.items) (notes_view notes.new.items) (mapped (settled (referred_view referred).1) (answer (lost_sizes is_lossy) (reference_to (referred_view referred).0))) result }
{
    note_if(notes, is_lossy, Way::Widened, MergeKind::Reference)?;
    let schema = referring(alloc, referred)?;
    Ok(Met::Told(schema))
}

fn with_first_reference(
    alloc: Global,
    document: &Document,
    notes: &mut Vec<MergeNote>,
    reference: Referred,
    first: Box<SchemaObject>,
    second: Box<SchemaObject>,
) -> Result<Met, Stop>
    ensures { (join less : SchemaOf → SchemaOf → Outcome SchemaOf) → Goes (met_outcome (document_view document.now) join less) (notes_view notes.old.items) (notes_view notes.new.items) (first_outcome (document_view document.now) join less (referred_view reference) (object_view first.value) (object_view second.value)) result }
{
    if refer_alike(&first, &second) {
        let is_lossy = either_drops(&first, &second);
        return same_reference(alloc, notes, is_lossy, reference);
    }
    let is_lossy = drops(&first);
    asked(
        alloc,
        document,
        notes,
        is_lossy,
        reference,
        as_schema(second),
    )
}

fn with_second_reference(
    alloc: Global,
    document: &Document,
    notes: &mut Vec<MergeNote>,
    reference: Referred,
    first: Box<SchemaObject>,
    second: Box<SchemaObject>,
) -> Result<Met, Stop>
    ensures { (join less : SchemaOf → SchemaOf → Outcome SchemaOf) → Goes (met_outcome (document_view document.now) join less) (notes_view notes.old.items) (notes_view notes.new.items) (second_outcome (document_view document.now) join less (referred_view reference) (object_view first.value) (object_view second.value)) result }
{
    let is_lossy = drops(&second);
    asked(
        alloc,
        document,
        notes,
        is_lossy,
        reference,
        as_schema(first),
    )
}

#[tactic(auto, using(merge_steps::proofs::Ending::memory_goes))]
fn objects(
    alloc: Global,
    document: &Document,
    notes: &mut Vec<MergeNote>,
    first: Box<SchemaObject>,
    second: Box<SchemaObject>,
) -> Result<Met, Stop>
    ensures { (join less : SchemaOf → SchemaOf → Outcome SchemaOf) → Goes (met_outcome (document_view document.now) join less) (notes_view notes.old.items) (notes_view notes.new.items) (referring_outcome (document_view document.now) join less (object_view first.value) (object_view second.value)) result }
{
    match reference_of(alloc, &first)? {
        Some(reference) => {
            with_first_reference(alloc, document, notes, reference, first, second)
        }
        None => without_first_reference(alloc, document, notes, first, second),
    }
}

#[tactic(auto, using(merge_steps::proofs::Ending::memory_goes))]
fn without_first_reference(
    alloc: Global,
    document: &Document,
    notes: &mut Vec<MergeNote>,
    first: Box<SchemaObject>,
    second: Box<SchemaObject>,
) -> Result<Met, Stop>
    ensures { (join less : SchemaOf → SchemaOf → Outcome SchemaOf) → Goes (met_outcome (document_view document.now) join less) (notes_view notes.old.items) (notes_view notes.new.items) (other_outcome (document_view document.now) join less (object_view first.value) (object_view second.value) (referred_in (object_view second.value))) result }
{
    match reference_of(alloc, &second)? {
        Some(reference) => {
            with_second_reference(alloc, document, notes, reference, first, second)
        }
        None => bodies(
            alloc,
            document,
            notes,
            Box::into_inner(first),
            Box::into_inner(second),
        ),
    }
}

// ---- two sides

#[tactic(auto, using(crate::proofs::Meeting::second_true, crate::proofs::Meeting::second_false))]
fn object_side(
    alloc: Global,
    document: &Document,
    notes: &mut Vec<MergeNote>,
    first: Box<SchemaObject>,
    second: Schema,
) -> Result<Met, Stop>
    ensures { (join less : SchemaOf → SchemaOf → Outcome SchemaOf) → Goes (met_outcome (document_view document.now) join less) (notes_view notes.old.items) (notes_view notes.new.items) (sides_outcome (document_view document.now) join less (object_view first.value) (schema_view second)) result }
{
    match second {
        Schema::Bool(b) => {
            if b {
                return Ok(Met::Told(as_schema(first)));
            }
            Err(Stop::Never)
        }
        Schema::Object(second) => objects(alloc, document, notes, first, second),
    }
}

#[tactic(auto, using(crate::proofs::Meeting::first_true, crate::proofs::Meeting::first_false))]
fn sides(
    alloc: Global,
    document: &Document,
    notes: &mut Vec<MergeNote>,
    first: Schema,
    second: Schema,
) -> Result<Met, Stop>
    ensures { (join less : SchemaOf → SchemaOf → Outcome SchemaOf) → Goes (met_outcome (document_view document.now) join less) (notes_view notes.old.items) (notes_view notes.new.items) (sides_outcome (document_view document.now) join less (schema_view first) (schema_view second)) result }
{
    match first {
        Schema::Bool(b) => {
            if b {
                return Ok(Met::Told(second));
            }
            Err(Stop::Never)
        }
        Schema::Object(first) => object_side(alloc, document, notes, first, second),
    }
}

/// What is left of the merge of two schemas: each is opened on its walk, which may have so many steps; the left side is met first.
pub fn meet(
    alloc: Global,
    document: &Document,
    most: usize,
    notes: &mut Vec<MergeNote>,
    first: &Schema,
    second: &Schema,
) -> Result<Met, Stop>
    ensures { (join less : SchemaOf → SchemaOf → Outcome SchemaOf) → Goes (met_outcome (document_view document.now) join less) (notes_view notes.old.items) (notes_view notes.new.items) (walked_join (document_view document.now) most join less (schema_view first.now) (schema_view second.now)) result }
{
    let first = entered(alloc, most, first)?;
    let second = entered(alloc, most, second)?;
    sides(alloc, document, notes, first, second)
}
