//! What becomes of one member.
ghost use Rattle.std.specs.Prelude.{◌≡◌, ◌<◌, ◌+◌, ◌++◌, [], IfOk, OnOk, Some, true, get_or, length, option_map};
ghost use Rattle.schema_defs.specs.Schema.{Schema as SchemaOf, boolean};
ghost use Rattle.schema_types.specs.View.{schema_view, schemas_view};
ghost use Rattle.merge_defs.specs.Outcome.{Outcome};
ghost use Rattle.merge_defs.specs.Members.{fate as fate_of, none_kept as none_kept_of};
ghost use Rattle.merge_parts.specs.View.{notes_view};
ghost use Rattle.merge_parts.specs.Steps.{Steps, given};
ghost use Rattle.merge_steps.specs.Ends.{Leads};
ghost use Rattle.merge_branches.specs.Kept.{as_view, fate_so, fate_view, fates_from, kept_view, kept_with, stands_so};

use crate::joint::joint;
use crate::kept::{As, Fate, Kept, Left};
use merge_parts::{MergeKind, MergeNote, Way, add_notes, has_way, note_if};
use schema_sameness::{roughly, wholly};
use schema_types::Schema;
use std::alloc::{AllocError, Global};

// The body or a member, which stands for its merge.
#[tactic(auto, using(crate::proofs::Fates::stood))]
fn standing(
    alloc: Global,
    notes: &mut Vec<MergeNote>,
    is_wide: bool,
    how: As,
    schema: &Schema,
    merge: &Schema,
) -> Result<Fate, AllocError>
    ensures { IfOk result (λ f. Steps (notes_view notes.old.items) (notes_view notes.new.items) (stands_so (as_view how) (schema_view schema.now) (schema_view merge.now) is_wide) (Some (fate_view f))) }
{
    let loses = !wholly(merge, schema);
    note_if(notes, loses, Way::Widened, MergeKind::Reference)?;
    let schema = schema.try_clone(alloc)?;
    Ok(Fate::Stays(Left {
        how,
        is_wider: loses || is_wide,
        schema,
    }))
}

// What becomes of a member whose merge with the body is that, where it is known whether the merge widens.
#[tactic(auto, using(crate::proofs::Fates::is_body, crate::proofs::Fates::is_member, crate::proofs::Fates::is_joint))]
fn fate_of_merge(
    alloc: Global,
    notes: &mut Vec<MergeNote>,
    is_wide: bool,
    body: &Schema,
    before: &[Schema],
    member: &Schema,
    after: &[Schema],
    merge: &Schema,
) -> Result<Fate, AllocError>
    ensures { IfOk result (λ f. Steps (notes_view notes.old.items) (notes_view notes.new.items) (fate_so (schema_view body.now) (schema_view member.now) (schemas_view before.now ++ schemas_view after.now) (schema_view merge.now) is_wide) (Some (fate_view f))) }
{
    if roughly(merge, body) {
        let fate = standing(alloc, notes, is_wide, As::Body, body, merge)?;
        return Ok(fate);
    }
    if roughly(merge, member) {
        let fate = standing(alloc, notes, is_wide, As::Member, member, merge)?;
        return Ok(fate);
    }
    let schema = joint(alloc, body, before, member, after)?;
    Ok(Fate::Stays(Left {
        how: As::Joined,
        is_wider: is_wide,
        schema,
    }))
}

// What becomes of a member, those before it and those after it being the others: `found` is its merge with the body, and `told` are the
// notes of that merge alone, which are written behind those before it.
#[tactic(auto, using(crate::proofs::Fates::was_never, crate::proofs::Fates::was_answer))]
fn fate(
    alloc: Global,
    notes: &mut Vec<MergeNote>,
    told: &Vec<MergeNote>,
    body: &Schema,
    before: &[Schema],
    member: &Schema,
    after: &[Schema],
    found: Option<Schema>,
) -> Result<Fate, AllocError>
    ensures { IfOk result (λ f. Steps (notes_view notes.old.items) (notes_view notes.new.items) (fate_of (schema_view body.now) (schema_view member.now) (schemas_view before.now ++ schemas_view after.now) (given (notes_view told.now.items) (option_map schema_view found))) (Some (fate_view f))) }
{
    add_notes(notes, told)?;
    match found {
        None => Ok(Fate::Out(has_way(told, Way::Narrowed))),
        Some(merge) => {
            let is_wide = has_way(told, Way::Widened);
            let fate = fate_of_merge(alloc, notes, is_wide, body, before, member, after, &merge)?;
            Ok(fate)
        }
    }
}

/// No members yet.
pub fn none_kept(alloc: Global) -> Kept
    ensures { kept_view result ≡ none_kept_of }
{
    Kept {
        members: Vec::new(alloc),
        is_lost: false,
    }
}

fn keep(kept: &mut Kept, fate: Fate) -> Result<(), AllocError>
    ensures { OnOk result (kept_view kept.new ≡ kept_with (kept_view kept.old) (fate_view fate)) }
{
    match fate {
        Fate::Out(is_narrow) => {
            kept.is_lost = kept.is_lost || is_narrow;
            Ok(())
        }
        Fate::Stays(left) => {
            kept.members.push(left)?;
            Ok(())
        }
    }
}

/// One member more: `found` is its merge with the body, and `told` are the notes of that merge alone.
#[tactic(auto, using(crate::proofs::Fates::judged_at))]
pub fn judge(
    alloc: Global,
    notes: &mut Vec<MergeNote>,
    told: &Vec<MergeNote>,
    kept: &mut Kept,
    body: &Schema,
    members: &Vec<Schema>,
    place: usize,
    found: Option<Schema>,
) -> Result<(), AllocError>
    requires { place < length members.now.items }
    ensures { OnOk result ((join : SchemaOf → SchemaOf → Outcome SchemaOf) → Steps [] (notes_view told.now.items) (join (schema_view body.now) (get_or (schemas_view members.now.items) place (boolean true))) (option_map schema_view found) → Leads (notes_view notes.old.items) (notes_view notes.new.items) (fates_from join (schema_view body.now) (schemas_view members.now.items) place (kept_view kept.old)) (fates_from join (schema_view body.now) (schemas_view members.now.items) (place + 1) (kept_view kept.new))) }
{
    let (before, rest) = members.split_at(place);
    let (_, after) = rest.split_at(1);
    let member = &members[place];
    let fate = fate(alloc, notes, told, body, before, member, after, found)?;
    keep(kept, fate)?;
    Ok(())
}
