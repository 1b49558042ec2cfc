//! Two sides of a subtraction.
ghost use Rattle.std.specs.Prelude.{◌≡◌, ℕ, List, IfOk, option_map};
ghost use Rattle.schema_defs.specs.Schema.{Document as DocumentOf, Plain, Schema as SchemaOf};
ghost use Rattle.schema_defs.specs.Walks.{IsGuarded};
ghost use Rattle.schema_types.specs.View.{object_view, same_of, schema_view, subschemas_view};
ghost use Rattle.schema_types.specs.DocumentView.{document_view};
ghost use Rattle.merge_defs.specs.Outcome.{Note, Outcome};
ghost use Rattle.merge_defs.specs.Less.{less_values as less_values_of};
ghost use Rattle.merge_defs.specs.Merge.{less_layer};
ghost use Rattle.merge_walks.specs.Carried.{made_on as made_on_of, on_walk};
ghost use Rattle.merge_walks.specs.Made.{longer as longer_of};
ghost use Rattle.merge_walks.specs.Walked.{has_reference as has_reference_of, left_side as left_side_of, walk_left as walk_left_of, walk_of, walked_less};
ghost use Rattle.merge_leaves.specs.View.{values_view};
ghost use Rattle.schema_sameness.specs.Parts.{same_in};
ghost use Rattle.merge_parts.specs.View.{notes_view};
ghost use Rattle.merge_steps.specs.Ends.{Ends, Goes};
ghost use Rattle.merge_members.specs.Plans.{maybe_members};
ghost use Rattle.merge_less.specs.Rows.{behind_values, objects_outcome, refusing, rows as rows_of, values_left as values_left_of};
ghost use Rattle.merge_less.specs.Taking.{taken_outcome, taking_outcome};

use crate::entries::entries_of;
use crate::exact::is_exact;
use crate::parts::parts_of;
use crate::refusal::refuse;
use crate::taking::{Taken, Taking};
use merge_leaves::less_values;
use merge_parts::{MergeKind, MergeNote, UnsupportedMerge, note_both_ways};
use merge_sides::{entered, unsupported, with_values};
use merge_steps::{Stop, answered};
use merge_walked::{Side, longer, made_on, walked};
use schema_types::{Document, ObjectValidation, Schema, SchemaObject, Subschemas, Walk};
use serde_json::Value;
use std::alloc::{AllocError, Global};

// ---- the walk of what is left

fn walk_of_both(alloc: Global, first: &Schema, second: &Schema) -> Result<Walk, AllocError>
    ensures { IfOk result (λ w. w ≡ longer_of (walk_of (schema_view first.now)) (walk_of (schema_view second.now))) }
{
    let side = Side::plain(first);
    let walk = side.walk(alloc)?;
    let other_side = Side::plain(second);
    let other = other_side.walk(alloc)?;
    let longer = longer(&walk, &other);
    longer.try_clone(alloc)
}

fn object_has_reference(object: &SchemaObject) -> bool
    ensures { result ≡ has_reference_of (object_view object.now) }
{
    object.reference.is_some()
}

fn has_reference(schema: &Schema) -> bool
    ensures { result ≡ has_reference_of (schema_view schema.now) }
{
    match schema {
        Schema::Bool(_) => false,
        Schema::Object(object) => object_has_reference(object),
    }
}

// A schema with a reference keeps its own walk, which the reference's target goes on with.
#[tactic(auto, using(crate::proofs::Walks::keeps_own, crate::proofs::Walks::takes_longer))]
fn walk_left(alloc: Global, first: &Schema, second: &Schema) -> Result<Walk, AllocError>
    ensures { IfOk result (λ w. w ≡ walk_left_of (schema_view first.now) (schema_view second.now)) }
{
    if has_reference(first) {
        let side = Side::plain(first);
        let walk = side.walk(alloc)?;
        return Ok(walk);
    }
    let walk = walk_of_both(alloc, first, second)?;
    Ok(walk)
}

fn made_on_walk(alloc: Global, walk: Walk, schema: Schema) -> Result<Schema, AllocError>
    ensures { IfOk result (λ s. schema_view s ≡ on_walk (made_on_of walk) (schema_view schema)) }
{
    let made = made_on(alloc, walk)?;
    Ok(walked(schema, made))
}

// What is left of the first side where an object is taken away is made on the walk.
fn left_side(
    alloc: Global,
    walk: Walk,
    first: Schema,
    second: &Schema,
) -> Result<Schema, AllocError>
    ensures { IfOk result (λ s. schema_view s ≡ left_side_of (schema_view second.now) walk (schema_view first)) }
{
    match second {
        Schema::Bool(_) => Ok(first),
        Schema::Object(_) => made_on_walk(alloc, walk, first),
    }
}

// ---- two objects

#[tactic(auto, using(merge_steps::proofs::Ending::memory, merge_sides::proofs::Going::quiet_ends))]
fn listed_left(
    alloc: Global,
    listed: &Option<Vec<Value>>,
    taken: &Option<Vec<Value>>,
) -> Result<Option<Vec<Value>>, Stop>
    ensures { (p : Plain) (ns : List Note) → Ends (λ vs. record p { enum_values = values_view vs }) ns ns (less_values_of (record p { enum_values = values_view listed.now }) (values_view listed.now) (values_view taken.now)) result }
{
    let found = less_values(alloc, listed, taken)?;
    answered(found)
}

// The object with the listed values that are left, or never.
fn values_left(
    alloc: Global,
    object: SchemaObject,
    taken: &SchemaObject,
) -> Result<SchemaObject, Stop>
    ensures { (ns : List Note) → Ends object_view ns ns (values_left_of (object_view object) (object_view taken.now)) result }
{
    let values = listed_left(alloc, &object.enum_values, &taken.enum_values)?;
    Ok(with_values(object, values))
}

// What is left to take away behind the listed values.
fn behind(
    alloc: Global,
    object: SchemaObject,
    members: Option<ObjectValidation>,
    subschemas: Option<Subschemas>,
) -> Result<Taken, AllocError>
    ensures { IfOk result (λ t. (join less : SchemaOf → SchemaOf → Outcome SchemaOf) → taken_outcome join less t ≡ behind_values join less (maybe_members members) (same_of (option_map subschemas_view subschemas)) (object_view object)) }
{
    let entries = entries_of(alloc, &object.object, &members)?;
    let parts = parts_of(alloc, subschemas)?;
    Ok(Taken {
        entries,
        object,
        any: parts.any,
        none: parts.none,
        all: parts.all,
    })
}

#[tactic(auto, using(crate::proofs::Refusing::refuses_in))]
fn refuse_in(first: &SchemaObject, second: &SchemaObject) -> Result<(), Stop>
    ensures { (o : Outcome SchemaOf) (ns : List Note) → Goes (λ u. o) ns ns (refusing (same_in (object_view first.now)) (same_in (object_view second.now)) o) result }
{
    refuse(&first.subschemas, &second.subschemas)
}

fn objects(
    alloc: Global,
    notes: &mut Vec<MergeNote>,
    is_exact: bool,
    first: SchemaObject,
    second: SchemaObject,
) -> Result<Taking, Stop>
    ensures { (join less : SchemaOf → SchemaOf → Outcome SchemaOf) → Goes (taking_outcome join less) (notes_view notes.old.items) (notes_view notes.new.items) (objects_outcome join less is_exact (object_view first) (object_view second)) result }
{
    refuse_in(&first, &second)?;
    note_both_ways(notes, !is_exact, MergeKind::Subtract)?;
    let object = values_left(alloc, first, &second)?;
    let taken = behind(alloc, object, second.object, second.subschemas)?;
    Ok(Taking::Objects(taken))
}

// ---- two sides

fn from_side(
    alloc: Global,
    notes: &mut Vec<MergeNote>,
    is_exact: bool,
    first: Schema,
    second: SchemaObject,
) -> Result<Taking, Stop>
    ensures { (join less : SchemaOf → SchemaOf → Outcome SchemaOf) → Goes (taking_outcome join less) (notes_view notes.old.items) (notes_view notes.new.items) (rows_of join less is_exact (schema_view first) (object_view second)) result }
{
    match first {
        Schema::Bool(b) => {
            if b {
                return Err(unsupported(UnsupportedMerge::Subtracting));
            }
            Err(Stop::Never)
        }
        Schema::Object(first) => objects(alloc, notes, is_exact, Box::into_inner(first), second),
    }
}

pub(crate) fn rows(
    alloc: Global,
    notes: &mut Vec<MergeNote>,
    is_exact: bool,
    first: Schema,
    second: Schema,
) -> Result<Taking, Stop>
    ensures { (join less : SchemaOf → SchemaOf → Outcome SchemaOf) → Goes (taking_outcome join less) (notes_view notes.old.items) (notes_view notes.new.items) (rows_of join less is_exact (schema_view first) (schema_view second)) result }
{
    match second {
        Schema::Bool(b) => {
            if b {
                return Err(Stop::Never);
            }
            Ok(Taking::Told(first))
        }
        Schema::Object(second) => {
            from_side(alloc, notes, is_exact, first, Box::into_inner(second))
        }
    }
}

fn two_sides(
    alloc: Global,
    document: &Document,
    notes: &mut Vec<MergeNote>,
    first: Schema,
    second: Schema,
) -> Result<Taking, Stop>
    requires { IsGuarded (document_view document.now) }
    ensures { (join less : SchemaOf → SchemaOf → Outcome SchemaOf) → Goes (taking_outcome join less) (notes_view notes.old.items) (notes_view notes.new.items) (less_layer (document_view document.now) join less (schema_view first) (schema_view second)) result }
{
    let exact = is_exact(document, &first, &second);
    rows(alloc, notes, exact, first, second)
}

/// What is left where the second schema is taken away from the first: each is opened on its walk, which may have so many steps; the left side
/// is met first.
pub fn meet_less(
    alloc: Global,
    document: &Document,
    most: usize,
    notes: &mut Vec<MergeNote>,
    first: &Schema,
    second: &Schema,
) -> Result<Taking, Stop>
    requires { IsGuarded (document_view document.now) }
    ensures { (join less : SchemaOf → SchemaOf → Outcome SchemaOf) → Goes (taking_outcome join less) (notes_view notes.old.items) (notes_view notes.new.items) (walked_less (document_view document.now) most join less (schema_view first.now) (schema_view second.now)) result }
{
    let walk = walk_left(alloc, first, second)?;
    let left = entered(alloc, most, first)?;
    let taken = entered(alloc, most, second)?;
    let object = left_side(alloc, walk, left, &taken)?;
    two_sides(alloc, document, notes, object, taken)
}
