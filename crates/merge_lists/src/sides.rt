//! What is left to merge of the keywords of lists of two sides.
ghost use Rattle.std.specs.Prelude.{List};
ghost use Rattle.schema_defs.specs.Schema.{Schema as SchemaOf, the_schema};
ghost use Rattle.schema_types.specs.View.{array_view, maybe_view, schema_view};
ghost use Rattle.merge_defs.specs.Outcome.{Outcome};
ghost use Rattle.merge_defs.specs.Arrays.{two_contains as two_contains_of, two_lists_parts, two_rules};
ghost use Rattle.merge_leaves.specs.Sizes.{list_sizes_view};
ghost use Rattle.merge_parts.specs.View.{notes_view};
ghost use Rattle.merge_steps.specs.Ends.{Ends, Goes};
ghost use Rattle.merge_lists.specs.Plans.{list_outcome, maybe_array};

use crate::places::two_places;
use crate::plan::{Around, ListPlan};
use merge_leaves::{ListSizes, two_list_sizes};
use merge_parts::{MergeKind, MergeNote, never_unless};
use merge_steps::{Stop, answered};
use schema_sameness::same_schemas;
use schema_types::{ArrayValidation, Schema};
use std::alloc::Global;

#[tactic(auto, using(crate::proofs::Endings::same_stays, crate::proofs::Endings::others_clash, merge_steps::proofs::Ending::memory))]
fn one_of_both(
    notes: &mut Vec<MergeNote>,
    first: Box<Schema>,
    second: Box<Schema>,
) -> Result<Option<Box<Schema>>, Stop>
    ensures { Ends maybe_view (notes_view notes.old.items) (notes_view notes.new.items) (two_contains_of (the_schema (schema_view first.value)) (the_schema (schema_view second.value))) result }
{
    if same_schemas(&first, &second) {
        return Ok(Some(first));
    }
    never_unless(notes, false, MergeKind::Clash)?;
    Err(Stop::Never)
}

// One `contains`, or two that are the same.
#[tactic(auto, using(merge_steps::proofs::Ending::ends_as))]
fn two_contains(
    notes: &mut Vec<MergeNote>,
    first: Option<Box<Schema>>,
    second: Option<Box<Schema>>,
) -> Result<Option<Box<Schema>>, Stop>
    ensures { Ends maybe_view (notes_view notes.old.items) (notes_view notes.new.items) (two_contains_of (maybe_view first) (maybe_view second)) result }
{
    match (first, second) {
        (None, second) => Ok(second),
        (Some(first), None) => Ok(Some(first)),
        (Some(first), Some(second)) => one_of_both(notes, first, second),
    }
}

#[tactic(auto, using(merge_steps::proofs::Ending::answered_ends, merge_steps::proofs::Ending::memory))]
fn two_sizes(
    notes: &mut Vec<MergeNote>,
    is_array: bool,
    first: ListSizes,
    second: ListSizes,
) -> Result<ListSizes, Stop>
    ensures { Ends list_sizes_view (notes_view notes.old.items) (notes_view notes.new.items) (two_rules is_array (list_sizes_view first) (list_sizes_view second)) result }
{
    let sizes = two_list_sizes(notes, is_array, first, second)?;
    answered(sizes)
}

fn two_arrays(
    alloc: Global,
    notes: &mut Vec<MergeNote>,
    is_array: bool,
    first: ArrayValidation,
    second: ArrayValidation,
) -> Result<ListPlan, Stop>
    ensures { (join : SchemaOf → SchemaOf → Outcome SchemaOf) → Goes (list_outcome join) (notes_view notes.old.items) (notes_view notes.new.items) (two_lists_parts join is_array (array_view first) (array_view second)) result }
{
    let ArrayValidation {
        items,
        additional_items,
        contains,
        max_items,
        min_items,
        unique_items,
    } = first;
    let ArrayValidation {
        items: others,
        additional_items: other_rest,
        contains: other_contains,
        max_items: other_most,
        min_items: other_least,
        unique_items: other_unique,
    } = second;
    let contains = two_contains(notes, contains, other_contains)?;
    let sizes = ListSizes {
        max_items,
        min_items,
        unique_items,
    };
    let other_sizes = ListSizes {
        max_items: other_most,
        min_items: other_least,
        unique_items: other_unique,
    };
    let sizes = two_sizes(notes, is_array, sizes, other_sizes)?;
    let around = Around {
        contains,
        sizes,
        is_array,
    };
    two_places(alloc, items, additional_items, others, other_rest, around)
}

/// What is left to merge of the keywords of lists of two sides, where `is_array` says that the merged type is array; where one side alone
/// has some, nothing.
#[tactic(auto, using(crate::proofs::Fronts::planned))]
pub fn two_lists(
    alloc: Global,
    notes: &mut Vec<MergeNote>,
    is_array: bool,
    first: Option<ArrayValidation>,
    second: Option<ArrayValidation>,
) -> Result<ListPlan, Stop>
    ensures { (join : SchemaOf → SchemaOf → Outcome SchemaOf) → Goes (list_outcome join) (notes_view notes.old.items) (notes_view notes.new.items) (two_lists_parts join is_array (maybe_array first) (maybe_array second)) result }
{
    match (first, second) {
        (None, second) => Ok(ListPlan::Told(second)),
        (Some(first), None) => Ok(ListPlan::Told(Some(first))),
        (Some(first), Some(second)) => two_arrays(alloc, notes, is_array, first, second),
    }
}
