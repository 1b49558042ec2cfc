//! What is left to merge of the items of two sides.
ghost use Rattle.std.specs.Prelude.{◌≡◌, List, Some, false, nat_le, option_map};
ghost use Rattle.schema_defs.specs.Schema.{Schema as SchemaOf, MaybeSchema, by_place as by_place_of, each_item as each_item_of, no_more, no_schema, schemas};
ghost use Rattle.schema_types.specs.View.{items_view, maybe_view, places_of, schema_view, schemas_view};
ghost use Rattle.merge_defs.specs.Outcome.{Note, Outcome, mapped};
ghost use Rattle.merge_defs.specs.Arrays.{alone as alone_of, cut_to as cut_to_of, first_schemas, or_true as or_true_of, placed as placed_of, schema_count, two_places as two_places_of};
ghost use Rattle.merge_leaves.specs.Sizes.{list_sizes_view};
ghost use Rattle.merge_steps.specs.Ends.{Goes};
ghost use Rattle.merge_lists.specs.Plans.{around_front, list_outcome, maybe_array};

use crate::front::{by_place, front};
use crate::pairs::paired;
use crate::plan::{Around, ListPlan, Pair, Places};
use merge_steps::Stop;
use schema_types::{ArrayValidation, Items, Schema};
use std::alloc::Global;

// ---- a side alone

#[tactic(auto, using(crate::proofs::Fronts::cut))]
fn first_items(items: Vec<Schema>, count: u32) -> Items
    ensures { items_view result ≡ by_place_of (first_schemas count (schemas (schemas_view items.items))) }
{
    let mut items = items;
    items.truncate(count as usize);
    by_place(items)
}

#[tactic(auto, using(crate::proofs::Fronts::so_many))]
fn has_so_many(items: &Vec<Schema>, count: u32) -> bool
    ensures { result ≡ nat_le count (schema_count (schemas (schemas_view items.now.items))) }
{
    count as usize <= items.len()
}

fn cut_off(count: u32, items: Vec<Schema>, around: Around) -> Option<ArrayValidation>
    ensures { maybe_array result ≡ around_front around (record { places = by_place_of (first_schemas count (schemas (schemas_view items.items))); rest = no_schema; max_items = Some count }) }
{
    let items = first_items(items, count);
    front(Some(items), None, Some(count), around)
}

fn uncut(
    most: Option<u32>,
    items: Vec<Schema>,
    rest: Option<Box<Schema>>,
    around: Around,
) -> Option<ArrayValidation>
    ensures { maybe_array result ≡ around_front around (record { places = by_place_of (schemas (schemas_view items.items)); rest = maybe_view rest; max_items = most }) }
{
    let items = by_place(items);
    front(Some(items), rest, most, around)
}

fn cut_at(
    count: u32,
    items: Vec<Schema>,
    rest: Option<Box<Schema>>,
    around: Around,
) -> Option<ArrayValidation>
    ensures { maybe_array result ≡ around_front around (cut_to_of (Some count) (schemas (schemas_view items.items)) (maybe_view rest)) }
{
    if has_so_many(&items, count) {
        cut_off(count, items, around)
    } else {
        uncut(Some(count), items, rest, around)
    }
}

// A list is cut to so many items, and ends there where it has as many.
fn cut_to(items: Vec<Schema>, rest: Option<Box<Schema>>, around: Around) -> Option<ArrayValidation>
    ensures { maybe_array result ≡ around_front around (cut_to_of (list_sizes_view around.sizes).max_items (schemas (schemas_view items.items)) (maybe_view rest)) }
{
    match around.sizes.max_items {
        None => uncut(None, items, rest, around),
        Some(count) => cut_at(count, items, rest, around),
    }
}

fn alone_items(items: Items, rest: Option<Box<Schema>>, around: Around) -> Option<ArrayValidation>
    ensures { maybe_array result ≡ around_front around (alone_of (list_sizes_view around.sizes).max_items (items_view items) (maybe_view rest)) }
{
    let most = around.sizes.max_items;
    match items {
        Items::One(schema) => front(Some(Items::One(schema)), None, most, around),
        Items::Many(items) => cut_to(items, rest, around),
    }
}

fn alone(items: Option<Items>, rest: Option<Box<Schema>>, around: Around) -> Option<ArrayValidation>
    ensures { maybe_array result ≡ around_front around (alone_of (list_sizes_view around.sizes).max_items (places_of (option_map items_view items)) (maybe_view rest)) }
{
    let most = around.sizes.max_items;
    match items {
        None => front(None, None, most, around),
        Some(items) => alone_items(items, rest, around),
    }
}

// ---- both sides

fn or_true(schema: Option<Box<Schema>>) -> Schema
    ensures { schema_view result ≡ or_true_of (maybe_view schema) }
{
    match schema {
        None => Schema::Bool(true),
        Some(schema) => Box::into_inner(schema),
    }
}

// What is left to merge place by place.
#[tactic(auto, using(crate::proofs::Fronts::planned, merge_steps::proofs::Ending::memory_goes, merge_steps::proofs::Leading::mapped_after))]
fn placed(
    alloc: Global,
    is_placed: bool,
    list: &Vec<Schema>,
    after: Schema,
    others: &Vec<Schema>,
    after_others: Schema,
    around: Around,
) -> Result<ListPlan, Stop>
    ensures { (join : SchemaOf → SchemaOf → Outcome SchemaOf) (ns : List Note) → Goes (list_outcome join) ns ns (mapped (around_front around) (placed_of join around.is_array (list_sizes_view around.sizes) is_placed (schemas (schemas_view list.now.items)) (schema_view after) (schemas (schemas_view others.now.items)) (schema_view after_others))) result }
{
    let pairs = paired(alloc, list, &after, others, &after_others)?;
    let after = Pair {
        first: after,
        second: after_others,
    };
    Ok(ListPlan::ByPlace(Places {
        pairs,
        after,
        is_placed,
        around,
    }))
}

// Of a list with one schema the list comes first, from either side.
fn list_and_one(
    alloc: Global,
    list: &Vec<Schema>,
    rest: Option<Box<Schema>>,
    one: Box<Schema>,
    around: Around,
) -> Result<ListPlan, Stop>
    ensures { (join : SchemaOf → SchemaOf → Outcome SchemaOf) (ns : List Note) → Goes (list_outcome join) ns ns (mapped (around_front around) (placed_of join around.is_array (list_sizes_view around.sizes) false (schemas (schemas_view list.now.items)) (or_true_of (maybe_view rest)) no_more (schema_view one.value))) result }
{
    let none = Vec::new(alloc);
    let after = or_true(rest);
    let after_none = Box::into_inner(one);
    placed(alloc, false, list, after, &none, after_none, around)
}

#[tactic(auto, using(crate::proofs::Fronts::planned))]
fn one_and(
    alloc: Global,
    one: Box<Schema>,
    others: Items,
    other_rest: Option<Box<Schema>>,
    around: Around,
) -> Result<ListPlan, Stop>
    ensures { (join : SchemaOf → SchemaOf → Outcome SchemaOf) (x : MaybeSchema) (ns : List Note) → Goes (list_outcome join) ns ns (mapped (around_front around) (two_places_of join around.is_array (list_sizes_view around.sizes) (each_item_of (schema_view one.value)) x (items_view others) (maybe_view other_rest))) result }
{
    match others {
        Items::One(other) => Ok(ListPlan::Each(
            Pair {
                first: Box::into_inner(one),
                second: Box::into_inner(other),
            },
            around,
        )),
        Items::Many(list) => list_and_one(alloc, &list, other_rest, one, around),
    }
}

fn list_and(
    alloc: Global,
    list: Vec<Schema>,
    rest: Option<Box<Schema>>,
    others: Items,
    other_rest: Option<Box<Schema>>,
    around: Around,
) -> Result<ListPlan, Stop>
    ensures { (join : SchemaOf → SchemaOf → Outcome SchemaOf) (ns : List Note) → Goes (list_outcome join) ns ns (mapped (around_front around) (two_places_of join around.is_array (list_sizes_view around.sizes) (by_place_of (schemas (schemas_view list.items))) (maybe_view rest) (items_view others) (maybe_view other_rest))) result }
{
    match others {
        Items::One(other) => list_and_one(alloc, &list, rest, other, around),
        Items::Many(others) => {
            let after = or_true(rest);
            let after_others = or_true(other_rest);
            placed(alloc, true, &list, after, &others, after_others, around)
        }
    }
}

fn both_items(
    alloc: Global,
    items: Items,
    rest: Option<Box<Schema>>,
    others: Items,
    other_rest: Option<Box<Schema>>,
    around: Around,
) -> Result<ListPlan, Stop>
    ensures { (join : SchemaOf → SchemaOf → Outcome SchemaOf) (ns : List Note) → Goes (list_outcome join) ns ns (mapped (around_front around) (two_places_of join around.is_array (list_sizes_view around.sizes) (items_view items) (maybe_view rest) (items_view others) (maybe_view other_rest))) result }
{
    match items {
        Items::One(one) => one_and(alloc, one, others, other_rest, around),
        Items::Many(list) => list_and(alloc, list, rest, others, other_rest, around),
    }
}

/// What is left to merge of the items of two sides.
#[tactic(auto, using(crate::proofs::Fronts::planned))]
pub(crate) fn two_places(
    alloc: Global,
    items: Option<Items>,
    rest: Option<Box<Schema>>,
    others: Option<Items>,
    other_rest: Option<Box<Schema>>,
    around: Around,
) -> Result<ListPlan, Stop>
    ensures { (join : SchemaOf → SchemaOf → Outcome SchemaOf) (ns : List Note) → Goes (list_outcome join) ns ns (mapped (around_front around) (two_places_of join around.is_array (list_sizes_view around.sizes) (places_of (option_map items_view items)) (maybe_view rest) (places_of (option_map items_view others)) (maybe_view other_rest))) result }
{
    match (items, others) {
        (None, others) => Ok(ListPlan::Told(alone(others, other_rest, around))),
        (Some(items), None) => Ok(ListPlan::Told(alone(Some(items), rest, around))),
        (Some(items), Some(others)) => {
            both_items(alloc, items, rest, others, other_rest, around)
        }
    }
}
