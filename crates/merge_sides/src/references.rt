//! References of two sides.
ghost use Rattle.std.specs.Prelude.{◌≡◌, IfOk, List, option_map, string_bytes};
ghost use Rattle.schema_defs.specs.Schema.{Schema as SchemaOf};
ghost use Rattle.schema_types.specs.View.{object_view, schema_view};
ghost use Rattle.schema_types.specs.DocumentView.{document_view};
ghost use Rattle.merge_walks.specs.Carried.{on_walk};
ghost use Rattle.merge_walks.specs.Made.{settled};
ghost use Rattle.merge_defs.specs.Outcome.{Note, Outcome, mapped, noted};
ghost use Rattle.merge_defs.specs.Members.{lost_sizes};
ghost use Rattle.merge_defs.specs.Merge.{reference_to, stands_for_target};
ghost use Rattle.merge_parts.specs.View.{notes_view};
ghost use Rattle.merge_steps.specs.Ends.{Ends, Goes};
ghost use Rattle.merge_sides.specs.Met.{met_outcome, referred_outcome, referred_view, target_then};
ghost use Rattle.merge_sides.specs.Referring.{referred_in, target_outcome};

use crate::met::{Asked, Met, Referred};
use merge_parts::{MergeKind, MergeNote, Way, note_if};
use merge_steps::Stop;
use merge_walked::{made_on, own_walk, settled as settled_on, to_target, walked};
use schema_sameness::{roughly, wholly};
use schema_types::{Document, Schema, SchemaObject, Walk, as_schema};
use std::alloc::{AllocError, Global};

fn as_object(reference: String, walk: Walk) -> SchemaObject
    ensures { object_view result ≡ on_walk walk (reference_to (string_bytes reference)) }
{
    SchemaObject {
        title: None,
        description: None,
        default: None,
        const_value: None,
        types: None,
        format: None,
        enum_values: None,
        subschemas: None,
        number: None,
        string: None,
        array: None,
        object: None,
        reference: Some(reference),
        walk: Some(walk),
    }
}

// The reference of an object, and the object's walk.
pub(crate) fn referred(alloc: Global, object: &SchemaObject) -> Result<Option<Referred>, AllocError>
    ensures { IfOk result (λ o. option_map referred_view o ≡ referred_in (object_view object.now)) }
{
    match &object.reference {
        None => Ok(None),
        Some(text) => {
            let reference = String::from_str(alloc, text)?;
            let walk = own_walk(alloc, &object.walk)?;
            Ok(Some(Referred { reference, walk }))
        }
    }
}

/// A reference that a merge made of members on its own walk.
pub(crate) fn referring(alloc: Global, referred: Referred) -> Result<Schema, AllocError>
    ensures { IfOk result (λ s. schema_view s ≡ settled (referred_view referred).1 (reference_to (referred_view referred).0)) }
{
    let Referred { reference, walk } = referred;
    let walk = made_on(alloc, walk)?;
    let boxed = Box::new(alloc, as_object(reference, walk))?;
    Ok(as_schema(boxed))
}

// What the merge of a reference's target with the other side is answered as.
#[tactic(auto, using(merge_steps::proofs::Ending::memory, crate::proofs::Standing::settles, crate::proofs::Standing::refers))]
fn standing(
    alloc: Global,
    notes: &mut Vec<MergeNote>,
    target: &Schema,
    referred: Referred,
    merge: Schema,
) -> Result<Schema, Stop>
    ensures { Ends schema_view (notes_view notes.old.items) (notes_view notes.new.items) (mapped (settled (referred_view referred).1) (stands_for_target (referred_view referred).0 (schema_view target.now) (schema_view merge))) result }
{
    if !roughly(&merge, target) {
        let schema = settled_on(alloc, &referred.walk, merge)?;
        return Ok(schema);
    }
    let loses = !wholly(&merge, target);
    note_if(notes, loses, Way::Widened, MergeKind::Reference)?;
    let schema = referring(alloc, referred)?;
    Ok(schema)
}

/// What the merge of a reference's target with the other side is answered as: the reference, where the merge is roughly its target.
#[tactic(auto, using(crate::proofs::Standing::no_target, crate::proofs::Standing::with_target))]
pub fn stand_for(
    alloc: Global,
    document: &Document,
    notes: &mut Vec<MergeNote>,
    referred: Referred,
    merge: Schema,
) -> Result<Schema, Stop>
    ensures { Ends schema_view (notes_view notes.old.items) (notes_view notes.new.items) (referred_outcome (document_view document.now) (referred_view referred) (schema_view merge)) result }
{
    match document.target(&referred.reference) {
        None => Err(Stop::Never),
        Some(target) => standing(alloc, notes, target, referred, merge),
    }
}

// The target of the reference, on the reference's walk continued by one step.
#[tactic(auto, using(merge_steps::proofs::Ending::memory_goes, crate::proofs::Standing::nowhere, crate::proofs::Standing::at_target))]
fn target_on(alloc: Global, document: &Document, referred: &Referred) -> Result<Schema, Stop>
    ensures { (k : SchemaOf → Outcome SchemaOf) (ns : List Note) → Goes (λ s. k (schema_view s)) ns ns (target_then (document_view document.now) (referred_view referred.now) k) result }
{
    match document.target(&referred.reference) {
        None => Err(Stop::Never),
        Some(target) => {
            let place = document.target_location(alloc, &referred.reference)?;
            let walk = to_target(alloc, &referred.walk, &place)?;
            let copy = target.try_clone(alloc)?;
            Ok(walked(copy, walk))
        }
    }
}

/// What is left where a side is a reference: its target with the other side.
pub(crate) fn asked(
    alloc: Global,
    document: &Document,
    notes: &mut Vec<MergeNote>,
    is_lossy: bool,
    referred: Referred,
    other: Schema,
) -> Result<Met, Stop>
    ensures { (join less : SchemaOf → SchemaOf → Outcome SchemaOf) → Goes (met_outcome (document_view document.now) join less) (notes_view notes.old.items) (notes_view notes.new.items) (noted (lost_sizes is_lossy) (target_outcome (document_view document.now) join less (referred_view referred) (schema_view other))) result }
{
    note_if(notes, is_lossy, Way::Widened, MergeKind::Reference)?;
    let target = target_on(alloc, document, &referred)?;
    Ok(Met::Target(Asked {
        target,
        other,
        rest: referred,
    }))
}
