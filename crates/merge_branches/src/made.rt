//! What is made of the members that are left.
ghost use Rattle.std.specs.Prelude.{◌≡◌, IfOk, List, option_map};
ghost use Rattle.std.specs.List.{list_all, list_any};
ghost use Rattle.schema_defs.specs.Walks.{IsGuarded};
ghost use Rattle.schema_types.specs.View.{schema_view, schemas_view};
ghost use Rattle.schema_types.specs.DocumentView.{document_view};
ghost use Rattle.merge_defs.specs.Members.{any_narrows as any_narrows_of, are_two as are_two_of, finish_any as finish_any_of, finish_one as finish_one_of, gathered as gathered_of, is_as_member, is_joined, left_schemas, one_forgets as one_forgets_of, one_mixes as one_mixes_of, one_narrows as one_narrows_of};
ghost use Rattle.merge_defs.specs.Outcome.{Note};
ghost use Rattle.merge_parts.specs.View.{notes_view};
ghost use Rattle.merge_parts.specs.Steps.{Quietly};
ghost use Rattle.merge_steps.specs.Ends.{Ends};
ghost use Rattle.merge_branches.specs.Kept.{branch_of, finish_of, kept_view, left_view};
ghost use Rattle.merge_branches.specs.Tests.{passes as passes_of};

use crate::alone::branch_schema;
use crate::branch::Branch;
use crate::kept::{As, Kept, Left};
use enum_kinds::exclusive;
use merge_parts::{MergeKind, MergeNote, Way, note_if};
use merge_steps::{Stop, answered};
use schema_types::{Document, Schema};
use std::alloc::{AllocError, Global};

// ---- the members that are left

// What is asked of a member that is left.
#[derive(Clone, Copy)]
pub(crate) enum Test {
    Joined,
    Unjoined,
    Unlike,
    WideBody,
}

fn passes(left: &Left, test: Test) -> bool
    ensures { result ≡ passes_of test (left_view left.now) }
{
    match test {
        Test::Joined => matches!(left.how, As::Joined),
        Test::Unjoined => !matches!(left.how, As::Joined),
        Test::Unlike => !matches!(left.how, As::Member),
        Test::WideBody => matches!(left.how, As::Body) && left.is_wider,
    }
}

fn are_two(kept: &Kept) -> bool
    ensures { result ≡ are_two_of (kept_view kept.now).members }
{
    kept.members.len() >= 2
}

// Whether a member that is left passes the test.
fn has(kept: &Kept, test: Test) -> bool
    ensures { result ≡ list_any (passes_of test) (kept_view kept.now).members }
{
    for left in &kept.members {
        if passes(left, test) {
            return true;
        }
    }
    false
}

#[tactic(auto, using(crate::proofs::Listed::all_as))]
fn are_joined(kept: &Kept) -> bool
    ensures { result ≡ list_all is_joined (kept_view kept.now).members }
{
    !has(kept, Test::Unjoined)
}

#[tactic(auto, using(crate::proofs::Listed::all_as))]
fn are_members(kept: &Kept) -> bool
    ensures { result ≡ list_all is_as_member (kept_view kept.now).members }
{
    !has(kept, Test::Unlike)
}

// ---- what is noted of them

fn any_narrows(is_apart: bool, kept: &Kept) -> bool
    ensures { result ≡ any_narrows_of is_apart (kept_view kept.now) }
{
    has(kept, Test::Joined) && are_two(kept) && !is_apart
}

fn one_narrows(kept: &Kept) -> bool
    ensures { result ≡ one_narrows_of (kept_view kept.now) }
{
    are_two(kept) && has(kept, Test::WideBody)
}

fn one_mixes(is_apart: bool, kept: &Kept) -> bool
    ensures { result ≡ one_mixes_of is_apart (kept_view kept.now) }
{
    are_two(kept) && !is_apart && !are_joined(kept) && !are_members(kept)
}

fn one_forgets(is_apart: bool, kept: &Kept) -> bool
    ensures { result ≡ one_forgets_of is_apart (kept_view kept.now) }
{
    kept.is_lost && !is_apart && has(kept, Test::Unjoined)
}

// ---- what is answered

fn schemas_of(alloc: Global, kept: Kept) -> Result<Vec<Schema>, AllocError>
    ensures { IfOk result (λ v. schemas_view v.items ≡ left_schemas (kept_view kept).members) }
{
    let Kept {
        members,
        is_lost: _is_lost,
    } = kept;
    let mut schemas = Vec::new(alloc);
    for left in members {
        let Left {
            how: _how,
            is_wider: _is_wider,
            schema,
        } = left;
        schemas.push(schema)?;
    }
    Ok(schemas)
}

#[tactic(auto, using(crate::proofs::Finishing::of_several, crate::proofs::Finishing::of_one))]
fn one_or_all(
    alloc: Global,
    branch: Branch,
    schemas: Vec<Schema>,
) -> Result<Option<Schema>, AllocError>
    ensures { IfOk result (λ o. Quietly (gathered_of (branch_of branch) (schemas_view schemas.items)) (option_map schema_view o)) }
{
    if schemas.len() > 1 {
        let schema = branch_schema(alloc, branch, schemas)?;
        return Ok(Some(schema));
    }
    let mut schemas = schemas;
    Ok(schemas.pop())
}

#[tactic(auto, using(merge_steps::proofs::Ending::memory, crate::proofs::Finishing::quiet_ends))]
fn gathered(alloc: Global, branch: Branch, kept: Kept) -> Result<Schema, Stop>
    ensures { (ns : List Note) → Ends schema_view ns ns (gathered_of (branch_of branch) (left_schemas (kept_view kept).members)) result }
{
    let schemas = schemas_of(alloc, kept)?;
    let found = one_or_all(alloc, branch, schemas)?;
    answered(found)
}

#[tactic(auto, using(merge_steps::proofs::Ending::memory, crate::proofs::Finishing::finishes_any))]
fn finish_any(
    alloc: Global,
    notes: &mut Vec<MergeNote>,
    is_apart: bool,
    kept: Kept,
) -> Result<Schema, Stop>
    ensures { Ends schema_view (notes_view notes.old.items) (notes_view notes.new.items) (finish_any_of is_apart (kept_view kept)) result }
{
    let narrows = any_narrows(is_apart, &kept);
    note_if(notes, narrows, Way::Narrowed, MergeKind::Members)?;
    gathered(alloc, Branch::Any, kept)
}

#[tactic(auto, using(merge_steps::proofs::Ending::memory, crate::proofs::Finishing::finishes_one))]
fn finish_one(
    alloc: Global,
    notes: &mut Vec<MergeNote>,
    is_apart: bool,
    kept: Kept,
) -> Result<Schema, Stop>
    ensures { Ends schema_view (notes_view notes.old.items) (notes_view notes.new.items) (finish_one_of is_apart (kept_view kept)) result }
{
    let narrows = one_narrows(&kept);
    note_if(notes, narrows, Way::Narrowed, MergeKind::Members)?;
    let widens = one_mixes(is_apart, &kept) || one_forgets(is_apart, &kept);
    note_if(notes, widens, Way::Widened, MergeKind::Members)?;
    gathered(alloc, Branch::One, kept)
}

/// None of the members that are left is never, one is that, and more are `anyOf` or `oneOf` of all.
pub fn finish(
    alloc: Global,
    document: &Document,
    notes: &mut Vec<MergeNote>,
    branch: Branch,
    kept: Kept,
    members: &Vec<Schema>,
) -> Result<Schema, Stop>
    requires { IsGuarded (document_view document.now) }
    ensures { Ends schema_view (notes_view notes.old.items) (notes_view notes.new.items) (finish_of (document_view document.now) branch (schemas_view members.now.items) (kept_view kept)) result }
{
    let is_apart = exclusive(document, members.as_slice());
    match branch {
        Branch::Any => finish_any(alloc, notes, is_apart, kept),
        Branch::One => finish_one(alloc, notes, is_apart, kept),
    }
}
