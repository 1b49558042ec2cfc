//! The calls: merges by walks, with so many levels of parts within parts. What they answer carries its walks as merges see them.
ghost use Rattle.std.specs.Prelude.{IfErr, IfOk, option_map};
ghost use Rattle.schema_defs.specs.Schema.{schemas};
ghost use Rattle.schema_defs.specs.Walks.{IsGuarded};
ghost use Rattle.schema_types.specs.View.{same_of, schema_view, schemas_view, subschemas_view};
ghost use Rattle.schema_types.specs.DocumentView.{document_view};
ghost use Rattle.merge_walks.specs.Walked.{join_by_walks, less_by_walks, merge_by_walks, with_by_walks};
ghost use Rattle.merge_parts.specs.Steps.{Faults, Steps};
ghost use Rattle.merge_parts.specs.View.{notes_view};
ghost use Rattle.merge_steps.specs.Ends.{Ends};
ghost use Rattle.merge_cycle.specs.Within.{document_in};

use crate::cycle::{fold, join, less, with_same};
use crate::how::{How, Scope};
use merge_less::{Listed, divided};
use merge_parts::{MergeFault, MergeNote};
use merge_sides::{finished, refuse_subschemas};
use merge_steps::{Budget, Stop, found};
use merge_walked::{Side, copy_maybe_subschemas, opened};
use schema_types::{Document, Schema, Subschemas};
use std::alloc::Global;

/// The merge of two schemas, where walks have at most so many steps, and so much may still be merged: a schema, or nothing for never. The notes are written behind those
/// before them.
pub fn join_schemas(
    alloc: Global,
    document: &Document,
    most: usize,
    levels: u32,
    budget: &Budget,
    notes: &mut Vec<MergeNote>,
    first: Schema,
    second: Schema,
) -> Result<Option<Schema>, MergeFault>
    requires { IsGuarded (document_view document.now) }
    ensures found { IfOk result (λ o. Steps (notes_view notes.old.items) (notes_view notes.new.items) (join_by_walks (document_view document.now) most levels (schema_view first) (schema_view second)) (option_map schema_view o)) }
    ensures refused { IfErr result (λ e. Faults e (join_by_walks (document_view document.now) most levels (schema_view first) (schema_view second))) }
{
    let scope = Scope {
        alloc,
        document,
        most,
        budget,
    };
    let left = levels as usize + 1;
    found(join(&scope, notes, left, first, second))
}

/// What is left of the first schema where the second is taken away, in the same way.
pub fn less_schemas(
    alloc: Global,
    document: &Document,
    most: usize,
    levels: u32,
    budget: &Budget,
    notes: &mut Vec<MergeNote>,
    first: Schema,
    second: Schema,
) -> Result<Option<Schema>, MergeFault>
    requires { IsGuarded (document_view document.now) }
    ensures found { IfOk result (λ o. Steps (notes_view notes.old.items) (notes_view notes.new.items) (less_by_walks (document_view document.now) most levels (schema_view first) (schema_view second)) (option_map schema_view o)) }
    ensures refused { IfErr result (λ e. Faults e (less_by_walks (document_view document.now) most levels (schema_view first) (schema_view second))) }
{
    let scope = Scope {
        alloc,
        document,
        most,
        budget,
    };
    let left = levels as usize + 1;
    found(less(&scope, notes, left, first, second))
}

/// The merge of several schemas from the left, in the same way; of none it is `true`.
pub fn merge_schemas(
    alloc: Global,
    document: &Document,
    most: usize,
    levels: u32,
    budget: &Budget,
    notes: &mut Vec<MergeNote>,
    list: Vec<Schema>,
) -> Result<Option<Schema>, MergeFault>
    requires { IsGuarded (document_view document.now) }
    ensures found { IfOk result (λ o. Steps (notes_view notes.old.items) (notes_view notes.new.items) (merge_by_walks (document_view document.now) most levels (schemas (schemas_view list.items))) (option_map schema_view o)) }
    ensures refused { IfErr result (λ e. Faults e (merge_by_walks (document_view document.now) most levels (schemas (schemas_view list.items)))) }
{
    let scope = Scope {
        alloc,
        document,
        most,
        budget,
    };
    let left = levels as usize + 1;
    let Listed { first, rest } = divided(list);
    found(fold(&scope, notes, left, &None, How::Join, first, rest))
}

// The body on its walk, with the subschemas, which stand in it.
fn with_members(
    scope: &Scope<'_>,
    notes: &mut Vec<MergeNote>,
    left: usize,
    body: &Schema,
    subschemas: &Option<Subschemas>,
) -> Result<Schema, Stop>
    requires { IsGuarded (document_in scope.now) }
    ensures { Ends schema_view (notes_view notes.old.items) (notes_view notes.new.items) (with_by_walks (document_in scope.now) scope.now.most left (schema_view body.now) (same_of (option_map subschemas_view subschemas.now))) result }
{
    let side = Side::plain(body);
    let walk = side.walk(scope.alloc)?;
    let inside = copy_maybe_subschemas(scope.alloc, &walk, subschemas)?;
    let open = opened(scope.alloc, &side)?;
    refuse_subschemas(&inside)?;
    let walk = Some(walk);
    let merge = with_same(scope, notes, left, &walk, open, inside)?;
    let schema = finished(scope.alloc, &walk, merge)?;
    Ok(schema)
}

/// The merge of a body with subschemas that stand in it, in the same way.
#[tactic(auto, using(crate::proofs::Taken::answers, crate::proofs::Taken::refuses))]
pub fn with_subschemas(
    alloc: Global,
    document: &Document,
    most: usize,
    levels: u32,
    budget: &Budget,
    notes: &mut Vec<MergeNote>,
    body: &Schema,
    subschemas: &Option<Subschemas>,
) -> Result<Option<Schema>, MergeFault>
    requires { IsGuarded (document_view document.now) }
    ensures found { IfOk result (λ o. Steps (notes_view notes.old.items) (notes_view notes.new.items) (with_by_walks (document_view document.now) most levels (schema_view body.now) (same_of (option_map subschemas_view subschemas.now))) (option_map schema_view o)) }
    ensures refused { IfErr result (λ e. Faults e (with_by_walks (document_view document.now) most levels (schema_view body.now) (same_of (option_map subschemas_view subschemas.now)))) }
{
    let scope = Scope {
        alloc,
        document,
        most,
        budget,
    };
    let left = levels as usize;
    found(with_members(&scope, notes, left, body, subschemas))
}
