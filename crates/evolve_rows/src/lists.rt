//! The rows of lists, tuples, arrays and maps.
ghost use Rattle.std.specs.Prelude.{◌≡◌, ◌++◌, [], ◌∷◌, Bool, IfOk, OnOk, length, map};
ghost use Rattle.value_models.specs.TypeView.{type_view, types_view};
ghost use Rattle.value_models.specs.FieldView.{fields_view};
ghost use Rattle.evolve_defs.specs.Forms.{Table as Tables, array_form, list_form, map_form, tuple_form};
ghost use Rattle.evolve_defs.specs.Steps.{plain_row};
ghost use Rattle.evolve_defs.specs.Spots.{typed};
ghost use Rattle.evolve_defs.specs.Walk.{goes};
ghost use Rattle.evolve_rows.specs.FormView.{form_view, places_view};
ghost use Rattle.evolve_rows.specs.PlaceView.{place_view};
ghost use Rattle.evolve_rows.specs.TurnView.{by_lengths, by_place, checked as checked_in, from_one, pairs_view, spots_of, to_one, turn_view};

use crate::form::{Form, Places};
use crate::place::Place;
use crate::turn::{Broken, Pair, Turn};
use std::alloc::{AllocError, Global};
use value_models::{Field, ValueType};

/// A rule that is broken, or no further pair.
pub(crate) fn checked(alloc: Global, broken: Option<Broken>) -> Turn<'static>
    ensures { turn_view result ≡ typed (checked_in broken) }
{
    match broken {
        None => Turn::Goes(Vec::new(alloc)),
        Some(broken) => Turn::Stops(broken),
    }
}

/// One pair of places.
pub(crate) fn one<'a>(alloc: Global, old: Place<'a>, new: Place<'a>) -> Result<Turn<'a>, AllocError>
    ensures { IfOk result (λ t. turn_view t ≡ goes ((place_view old.entry, place_view new.entry) ∷ [])) }
{
    let mut pairs = Vec::new(alloc);
    pairs.push(Pair { old, new })?;
    Ok(Turn::Goes(pairs))
}

// The places of items or fields, in order.
fn item_places<'a>(alloc: Global, types: &'a [ValueType]) -> Result<Vec<Place<'a>>, AllocError>
    ensures { IfOk result (λ v. map place_view v.items ≡ spots_of (types_view types.now)) }
{
    let mut places = Vec::with_capacity(alloc, types.len())?;
    for ty in types {
        places.push(Place::Of(ty))?;
    }
    Ok(places)
}

fn field_places<'a>(alloc: Global, fields: &'a [Field]) -> Result<Vec<Place<'a>>, AllocError>
    ensures { IfOk result (λ v. map place_view v.items ≡ spots_of (map (λ f. f.field_type) (fields_view fields.now))) }
{
    let mut places = Vec::with_capacity(alloc, fields.len())?;
    for field in fields {
        places.push(Place::Of(&field.field_type))?;
    }
    Ok(places)
}

// The places of a tuple.
fn tuple_places<'a>(alloc: Global, places: Places<'a>) -> Result<Vec<Place<'a>>, AllocError>
    ensures { IfOk result (λ v. map place_view v.items ≡ spots_of (places_view places.entry)) }
{
    match places {
        Places::Types(types) => {
            let found = item_places(alloc, types)?;
            Ok(found)
        }
        Places::Fields(fields) => {
            let found = field_places(alloc, fields)?;
            Ok(found)
        }
    }
}

pub(crate) fn length_of(places: Places<'_>) -> usize
    ensures { result ≡ length (places_view places.entry) }
{
    match places {
        Places::Types(types) => types.len(),
        Places::Fields(fields) => fields.len(),
    }
}

/// Each of the old places with the new one, behind other pairs.
pub(crate) fn push_each<'a>(
    pairs: &mut Vec<Pair<'a>>,
    old: &[Place<'a>],
    new: Place<'a>,
) -> Result<(), AllocError>
    ensures { OnOk result (pairs_view pairs.new.items ≡ pairs_view pairs.old.items ++ to_one (map place_view old.now) (place_view new.entry)) }
{
    for place in old {
        pairs.push(Pair { old: *place, new })?;
    }
    Ok(())
}

// The old place with each of the new ones.
fn push_from<'a>(
    pairs: &mut Vec<Pair<'a>>,
    old: Place<'a>,
    new: &[Place<'a>],
) -> Result<(), AllocError>
    ensures { OnOk result (pairs_view pairs.new.items ≡ pairs_view pairs.old.items ++ from_one (place_view old.entry) (map place_view new.now)) }
{
    for place in new {
        pairs.push(Pair { old, new: *place })?;
    }
    Ok(())
}

// Place by place, of lists of one length.
fn push_by_place<'a>(
    pairs: &mut Vec<Pair<'a>>,
    old: &[Place<'a>],
    new: &[Place<'a>],
) -> Result<(), AllocError>
    requires { length old.now ≡ length new.now }
    ensures { OnOk result (pairs_view pairs.new.items ≡ pairs_view pairs.old.items ++ by_place (map place_view old.now) (map place_view new.now)) }
{
    for place in 0..old.len() {
        pairs.push(Pair {
            old: old[place],
            new: new[place],
        })?;
    }
    Ok(())
}

// A list, or an array with items.
pub(crate) fn list_row<'a>(
    alloc: Global,
    items: &'a ValueType,
    new: Form<'a>,
) -> Result<Turn<'a>, AllocError>
    ensures { IfOk result (λ t. (o n : Tables) (e : Bool) → turn_view t ≡ typed (plain_row o n (list_form e (type_view items.now)) (form_view new.entry))) }
{
    match new {
        Form::List(new) | Form::Set(new) => {
            let turn = one(alloc, Place::Of(items), Place::Of(new))?;
            Ok(turn)
        }
        _ => Ok(Turn::Stops(Broken::Kind)),
    }
}

fn each_to<'a>(alloc: Global, places: Places<'a>, new: Place<'a>) -> Result<Turn<'a>, AllocError>
    ensures { IfOk result (λ t. turn_view t ≡ goes (to_one (spots_of (places_view places.entry)) (place_view new.entry))) }
{
    let old = tuple_places(alloc, places)?;
    let mut pairs = Vec::new(alloc);
    push_each(&mut pairs, &old, new)?;
    Ok(Turn::Goes(pairs))
}

fn to_each<'a>(alloc: Global, old: Place<'a>, places: Places<'a>) -> Result<Turn<'a>, AllocError>
    ensures { IfOk result (λ t. turn_view t ≡ goes (from_one (place_view old.entry) (spots_of (places_view places.entry)))) }
{
    let new = tuple_places(alloc, places)?;
    let mut pairs = Vec::new(alloc);
    push_from(&mut pairs, old, &new)?;
    Ok(Turn::Goes(pairs))
}

fn place_by_place<'a>(
    alloc: Global,
    old: Places<'a>,
    new: Places<'a>,
) -> Result<Turn<'a>, AllocError>
    ensures { IfOk result (λ t. turn_view t ≡ by_lengths (spots_of (places_view old.entry)) (spots_of (places_view new.entry))) }
{
    let old = tuple_places(alloc, old)?;
    let new = tuple_places(alloc, new)?;
    if old.len() != new.len() {
        return Ok(Turn::Stops(Broken::Length));
    }
    let mut pairs = Vec::new(alloc);
    push_by_place(&mut pairs, &old, &new)?;
    Ok(Turn::Goes(pairs))
}

fn array_to_array<'a>(
    alloc: Global,
    old: &'a ValueType,
    length: u64,
    new: &'a ValueType,
    new_length: u64,
) -> Result<Turn<'a>, AllocError>
    ensures { IfOk result (λ t. (o n : Tables) → turn_view t ≡ typed (plain_row o n (array_form (type_view old.now) length) (array_form (type_view new.now) new_length))) }
{
    if length != new_length {
        return Ok(Turn::Stops(Broken::Length));
    }
    if length == 0 {
        return Ok(Turn::Goes(Vec::new(alloc)));
    }
    let turn = one(alloc, Place::Of(old), Place::Of(new))?;
    Ok(turn)
}

fn tuple_to_array<'a>(
    alloc: Global,
    old: Places<'a>,
    new: &'a ValueType,
    length: u64,
) -> Result<Turn<'a>, AllocError>
    ensures { IfOk result (λ t. (o n : Tables) → turn_view t ≡ typed (plain_row o n (tuple_form (places_view old.entry)) (array_form (type_view new.now) length))) }
{
    if length_of(old) as u64 != length {
        return Ok(Turn::Stops(Broken::Length));
    }
    let turn = each_to(alloc, old, Place::Of(new))?;
    Ok(turn)
}

fn array_to_tuple<'a>(
    alloc: Global,
    old: &'a ValueType,
    length: u64,
    new: Places<'a>,
) -> Result<Turn<'a>, AllocError>
    ensures { IfOk result (λ t. (o n : Tables) → turn_view t ≡ typed (plain_row o n (array_form (type_view old.now) length) (tuple_form (places_view new.entry)))) }
{
    if length_of(new) as u64 != length {
        return Ok(Turn::Stops(Broken::Length));
    }
    let turn = to_each(alloc, Place::Of(old), new)?;
    Ok(turn)
}

pub(crate) fn tuple_row<'a>(
    alloc: Global,
    old: Places<'a>,
    new: Form<'a>,
) -> Result<Turn<'a>, AllocError>
    ensures { IfOk result (λ t. (o n : Tables) → turn_view t ≡ typed (plain_row o n (tuple_form (places_view old.entry)) (form_view new.entry))) }
{
    match new {
        Form::List(new) => {
            let turn = each_to(alloc, old, Place::Of(new))?;
            Ok(turn)
        }
        Form::Set(new) => {
            let turn = each_to(alloc, old, Place::Of(new))?;
            Ok(turn)
        }
        Form::Tuple(new) => {
            let turn = place_by_place(alloc, old, new)?;
            Ok(turn)
        }
        Form::Array(new, length) => {
            let turn = tuple_to_array(alloc, old, new, length)?;
            Ok(turn)
        }
        _ => Ok(Turn::Stops(Broken::Kind)),
    }
}

pub(crate) fn array_row<'a>(
    alloc: Global,
    old: &'a ValueType,
    length: u64,
    new: Form<'a>,
) -> Result<Turn<'a>, AllocError>
    ensures { IfOk result (λ t. (o n : Tables) → turn_view t ≡ typed (plain_row o n (array_form (type_view old.now) length) (form_view new.entry))) }
{
    match new {
        Form::List(new) | Form::Set(new) => {
            let turn = one(alloc, Place::Of(old), Place::Of(new))?;
            Ok(turn)
        }
        Form::Tuple(new) => {
            let turn = array_to_tuple(alloc, old, length, new)?;
            Ok(turn)
        }
        Form::Array(new, new_length) => {
            let turn = array_to_array(alloc, old, length, new, new_length)?;
            Ok(turn)
        }
        _ => Ok(Turn::Stops(Broken::Kind)),
    }
}

// Names with names, and values with values.
pub(crate) fn map_row<'a>(
    alloc: Global,
    key: &'a ValueType,
    value: &'a ValueType,
    new: Form<'a>,
) -> Result<Turn<'a>, AllocError>
    ensures { IfOk result (λ t. (o n : Tables) → turn_view t ≡ typed (plain_row o n (map_form (type_view key.now) (type_view value.now)) (form_view new.entry))) }
{
    match new {
        Form::Map(new_key, new_value) => {
            let mut pairs = Vec::new(alloc);
            pairs.push(Pair {
                old: Place::Of(key),
                new: Place::Of(new_key),
            })?;
            pairs.push(Pair {
                old: Place::Of(value),
                new: Place::Of(new_value),
            })?;
            Ok(Turn::Goes(pairs))
        }
        _ => Ok(Turn::Stops(Broken::Kind)),
    }
}
