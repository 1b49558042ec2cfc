//! The keywords of lists, made of merged items.
ghost use Rattle.std.specs.Prelude.{◌≡◌, [], Bool, IfOk, option_map};
ghost use Rattle.schema_defs.specs.Schema.{ListRules, Schema as SchemaOf, by_place as by_place_of, each_item as each_item_of, lists, schemas};
ghost use Rattle.schema_types.specs.View.{array_view, items_view, maybe_view, places_of, schema_view, schemas_view};
ghost use Rattle.merge_defs.specs.Outcome.{Outcome};
ghost use Rattle.merge_defs.specs.Arrays.{ended_at as ended_at_of, goes_on, rest_of as rest_of_def};
ghost use Rattle.merge_parts.specs.View.{notes_view};
ghost use Rattle.merge_parts.specs.Steps.{given};
ghost use Rattle.merge_steps.specs.Ends.{Ends};
ghost use Rattle.merge_lists.specs.Plans.{around_front, each_outcome, ending_outcome, maybe_array, merged_view};

use crate::merged::{End, MergedPlaces, is_above_zero};
use crate::plan::Around;
use merge_leaves::kept_lists;
use merge_parts::{MergeKind, MergeNote, never_unless};
use merge_steps::Stop;
use schema_types::{ArrayValidation, Items, Schema};
use std::alloc::{AllocError, Global};

fn array_of(
    items: Option<Items>,
    additional_items: Option<Box<Schema>>,
    contains: Option<Box<Schema>>,
    max_items: Option<u32>,
    min_items: Option<u32>,
    unique_items: Option<bool>,
) -> ArrayValidation
    ensures { array_view result ≡ lists (places_of (option_map items_view items)) (maybe_view additional_items) (maybe_view contains) (record { max_items = max_items; min_items = min_items; unique_items = unique_items }) }
{
    ArrayValidation {
        items,
        additional_items,
        contains,
        max_items,
        min_items,
        unique_items,
    }
}

/// The keywords of lists with these items, what binds those after them, and this greatest number of items.
pub(crate) fn front(
    items: Option<Items>,
    rest: Option<Box<Schema>>,
    max_items: Option<u32>,
    around: Around,
) -> Option<ArrayValidation>
    ensures { maybe_array result ≡ around_front around (record { places = places_of (option_map items_view items); rest = maybe_view rest; max_items = max_items }) }
{
    let Around {
        contains,
        sizes,
        is_array: _is_array,
    } = around;
    kept_lists(array_of(
        items,
        rest,
        contains,
        max_items,
        sizes.min_items,
        sizes.unique_items,
    ))
}

/// What is made of the merge of one schema for each item; never, unless the empty list is refused.
#[tactic(auto, using(crate::proofs::Fronts::given_front, crate::proofs::Fronts::never_front, merge_steps::proofs::Ending::memory))]
pub fn each_front(
    alloc: Global,
    notes: &mut Vec<MergeNote>,
    around: Around,
    found: Option<Schema>,
) -> Result<Option<ArrayValidation>, Stop>
    ensures { (join : SchemaOf → SchemaOf → Outcome SchemaOf) → Ends maybe_array (notes_view notes.old.items) (notes_view notes.new.items) (each_outcome join around (given [] (option_map schema_view found))) result }
{
    match found {
        Some(schema) => {
            let items = each_item(alloc, schema)?;
            let most = around.sizes.max_items;
            Ok(front(Some(items), None, most, around))
        }
        None => {
            never_unless(
                notes,
                around.is_array && is_above_zero(around.sizes.min_items),
                MergeKind::Clash,
            )?;
            Err(Stop::Never)
        }
    }
}

fn each_item(alloc: Global, schema: Schema) -> Result<Items, AllocError>
    ensures { IfOk result (λ i. items_view i ≡ each_item_of (schema_view schema)) }
{
    let schema = Box::new(alloc, schema)?;
    Ok(Items::One(schema))
}

/// Items by place.
pub(crate) fn by_place(items: Vec<Schema>) -> Items
    ensures { items_view result ≡ by_place_of (schemas (schemas_view items.items)) }
{
    Items::Many(items)
}

// A `maxItems` of 0 stays.
fn ended_at(count: u32, most: Option<u32>) -> Option<u32>
    ensures { result ≡ ended_at_of count most }
{
    match most {
        Some(0) => Some(0),
        _ => Some(count),
    }
}

// What binds the items after those that are merged: where it is never, that binds them, or the whole is never.
#[tactic(auto, using(crate::proofs::Endings::rest_found, crate::proofs::Endings::rest_false, crate::proofs::Endings::rest_never, merge_steps::proofs::Ending::memory))]
fn rest_of(
    alloc: Global,
    notes: &mut Vec<MergeNote>,
    is_placed: bool,
    found: Option<Schema>,
) -> Result<Option<Box<Schema>>, Stop>
    ensures { (join : SchemaOf → SchemaOf → Outcome SchemaOf) (a : Bool) (c : ListRules) → Ends maybe_view (notes_view notes.old.items) (notes_view notes.new.items) (rest_of_def join a c is_placed (given [] (option_map schema_view found))) result }
{
    match found {
        Some(schema) => {
            let schema = Box::new(alloc, schema)?;
            Ok(Some(schema))
        }
        None => {
            if is_placed {
                let schema = Box::new(alloc, Schema::Bool(false))?;
                return Ok(Some(schema));
            }
            never_unless(notes, false, MergeKind::Clash)?;
            Err(Stop::Never)
        }
    }
}

// Where what binds the rest goes on after the items.
fn further(
    alloc: Global,
    notes: &mut Vec<MergeNote>,
    around: Around,
    is_placed: bool,
    items: Vec<Schema>,
    found: Option<Schema>,
) -> Result<Option<ArrayValidation>, Stop>
    ensures { (join : SchemaOf → SchemaOf → Outcome SchemaOf) → Ends maybe_array (notes_view notes.old.items) (notes_view notes.new.items) (ending_outcome join around is_placed (given [] (option_map schema_view found)) (record { items = schemas (schemas_view items.items); end = goes_on })) result }
{
    let most = around.sizes.max_items;
    let rest = rest_of(alloc, notes, is_placed, found)?;
    Ok(front(Some(by_place(items)), rest, most, around))
}

/// What is made of merged items, and of the merge of what binds the rest, where they go on.
#[tactic(auto, using(crate::proofs::Endings::ends_full, crate::proofs::Endings::ends_before))]
pub fn ended(
    alloc: Global,
    notes: &mut Vec<MergeNote>,
    around: Around,
    is_placed: bool,
    merged: MergedPlaces,
    found: Option<Schema>,
) -> Result<Option<ArrayValidation>, Stop>
    ensures { (join : SchemaOf → SchemaOf → Outcome SchemaOf) → Ends maybe_array (notes_view notes.old.items) (notes_view notes.new.items) (ending_outcome join around is_placed (given [] (option_map schema_view found)) (merged_view merged)) result }
{
    let MergedPlaces { items, end } = merged;
    let most = around.sizes.max_items;
    match end {
        End::GoesOn => further(alloc, notes, around, is_placed, items, found),
        End::AtMost => Ok(front(Some(by_place(items)), None, most, around)),
        End::AtClash(count) => {
            let most = ended_at(count, most);
            Ok(front(Some(by_place(items)), None, most, around))
        }
    }
}
