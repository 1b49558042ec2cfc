//! The first number of a value that isn't an i64, and the fault that tells it.
ghost use Rattle.std.specs.Prelude.{◌≡◌, ◌⊎◌, [], IfOk, IfErr, OnOk, map, option_map, true};
ghost use Rattle.serde_json.specs.View.{view, items_view, members_view};
ghost use Rattle.json_value.specs.View.{value_of, items_of, members_of};
ghost use Rattle.schema_tree.specs.Fault.{fault_view, memory};
ghost use Rattle.schema_tree.specs.Numbers.{HasWideNumber, WidePlacesAreExact, are_i64, wide_place as place_in, wide_place_of_items, wide_place_of_members};

use crate::fault::Fault;
use crate::number::is_i64;
use schema_faults::Found;
use schema_types::Location;
use serde_json::Value;
use serde_json::value::Map;
use std::alloc::{AllocError, Global};

/// The place of the first number that isn't an i64, depth first, members in the order of their names; nothing where each
/// number is one.
pub fn wide_place(alloc: Global, value: &Value) -> Result<Option<Location>, AllocError>
    ensures { IfOk result (λ o. o ≡ place_in (value_of (view value.now))) }
{
    match wide_in(alloc, value)? {
        Some(found) => Ok(Some(found.into_place().path)),
        None => Ok(None),
    }
}

#[cycle(wide)]
fn wide_in(alloc: Global, value: &Value) -> Result<Option<Found>, AllocError>
    ensures { IfOk result (λ o. o ≡ option_map (λ l. (l, [])) (place_in (value_of (view value.now)))) }
{
    match value {
        Value::Number(number) => {
            if is_i64(number) {
                return Ok(None);
            }
            Ok(Some(Found::here(alloc, "")?))
        }
        Value::Array(items) => wide_in_items(alloc, items),
        Value::Object(members) => wide_in_members(alloc, members),
        _ => Ok(None),
    }
}

#[cycle(wide)]
fn wide_in_items(alloc: Global, items: &Vec<Value>) -> Result<Option<Found>, AllocError>
    ensures { IfOk result (λ o. o ≡ option_map (λ l. (l, [])) (wide_place_of_items 0 (items_of (items_view items.now.items)))) }
{
    for (i, item) in items.iter().enumerate() {
        if let Some(found) = wide_in(alloc, item)? {
            return Ok(Some(found.under_place(alloc, i)?));
        }
    }
    Ok(None)
}

#[cycle(wide)]
fn wide_in_members(alloc: Global, members: &Map<String, Value>) -> Result<Option<Found>, AllocError>
    ensures { IfOk result (λ o. o ≡ option_map (λ l. (l, [])) (wide_place_of_members (members_of (members_view members.now.entries)))) }
{
    for (name, value) in members.iter() {
        if let Some(found) = wide_in(alloc, value)? {
            return Ok(Some(found.under(alloc, name)?));
        }
    }
    Ok(None)
}

/// Refuses values with a number that isn't an i64: the first such place in the first such value (`ValueNumber`).
/// `Memory` where memory runs out.
pub fn check_values(alloc: Global, values: &[Value]) -> Result<(), Fault>
    ensures fine { OnOk result (are_i64 (map view values.now) ≡ true) }
    ensures refusal { IfErr result (λ f. (fault_view f ≡ memory) ⊎ HasWideNumber (map view values.now) (fault_view f)) }
{
    for (index, value) in values.iter().enumerate() {
        match wide_place(alloc, value) {
            Ok(None) => {}
            Ok(Some(path)) => return Err(Fault::ValueNumber {
                index: index as u64,
                path,
            }),
            Err(_) => return Err(Fault::Memory),
        }
    }
    Ok(())
}

/// A value has such a place exactly where not all of its numbers are i64.
pub fn wide_places_are_exact()
    ensures { WidePlacesAreExact }
{}
