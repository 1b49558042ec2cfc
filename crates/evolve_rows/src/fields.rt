//! The row of fields: which old field is read by which new one, and what becomes of the others.
ghost use Rattle.std.specs.Prelude.{◌≡◌, ◌&&◌, ◌||◌, ◌++◌, IfOk, OnOk, bytes_eq, filter, map, not, option_map, string_bytes};
ghost use Rattle.std.specs.List.{list_all, list_any};
ghost use Rattle.model_defs.specs.Layer.{has_default, has_no_helper, may_be_missing, present_type};
ghost use Rattle.model_defs.specs.Reads.{leads_to_option};
ghost use Rattle.value_models.specs.FieldView.{default_view, field_view, fields_view, helper_view};
ghost use Rattle.evolve_defs.specs.Steps.{at_most_one, fields_verdict, finds, has_field, is_none, map_value, names_within, plain_fields, written_type};
ghost use Rattle.evolve_defs.specs.Spots.{of_type, typed};
ghost use Rattle.evolve_rows.specs.Found.{broken_by, found_by, found_view, gathered, passes, refs_view, rest_spots, start, with_rests, written_spots};
ghost use Rattle.evolve_rows.specs.PlaceView.{place_view, table_view};
ghost use Rattle.evolve_rows.specs.TurnView.{broken_view, pairs_view, turn_view};

use crate::lists::push_each;
use crate::place::{Place, Table};
use crate::question::leads_to_option;
use crate::rules::is_one_of;
use crate::turn::{Broken, Pair, Turn};
use std::alloc::{AllocError, Global};
use value_models::{Field, FieldDefault, Helper, ValueType};

// Which fields are picked: those that are no rest, rests, those that are written under a name of the new field, and the others.
#[derive(Clone, Copy)]
pub(crate) enum Pick<'a> {
    Plain,
    Rest,
    Own(&'a Field),
    Other(&'a Field),
}

// The old fields that no new one found yet; whether each new one found at most one; whether those that must be present are always written;
// and the pairs of their types.
#[derive(Drop)]
struct Found<'a> {
    left: Vec<&'a Field>,
    once: bool,
    present: bool,
    pairs: Vec<Pair<'a>>,
}

fn is_name_of(names: &[String], text: &str) -> bool
    ensures { result ≡ list_any (λ n. bytes_eq n text.now) (map string_bytes names.now) }
{
    for name in names {
        if name.as_str() == text {
            return true;
        }
    }
    false
}

fn finds(new: &Field, old: &Field) -> bool
    ensures { result ≡ finds (field_view new.now) (field_view old.now) }
{
    is_name_of(&new.deserialize_names, &old.serialize_name)
}

fn passes(pick: Pick<'_>, field: &Field) -> bool
    ensures { result ≡ passes pick.entry (field_view field.now) }
{
    match pick {
        Pick::Plain => !field.is_rest,
        Pick::Rest => field.is_rest,
        Pick::Own(new) => finds(new, field),
        Pick::Other(new) => !finds(new, field),
    }
}

pub(crate) fn of_struct<'a>(
    alloc: Global,
    pick: Pick<'_>,
    fields: &'a [Field],
) -> Result<Vec<&'a Field>, AllocError>
    ensures { IfOk result (λ v. refs_view v.items ≡ filter (passes pick.entry) (fields_view fields.now)) }
{
    let mut picked = Vec::new(alloc);
    for field in fields {
        if passes(pick, field) {
            picked.push(field)?;
        }
    }
    Ok(picked)
}

pub(crate) fn of_those<'a>(
    alloc: Global,
    pick: Pick<'_>,
    fields: &[&'a Field],
) -> Result<Vec<&'a Field>, AllocError>
    ensures { IfOk result (λ v. refs_view v.items ≡ filter (passes pick.entry) (refs_view fields.now)) }
{
    let mut picked = Vec::new(alloc);
    for field in fields {
        if passes(pick, *field) {
            picked.push(*field)?;
        }
    }
    Ok(picked)
}

// What is written where the field is written.
fn written_place(field: &Field) -> Place<'_>
    ensures { place_view result ≡ of_type (written_type (field_view field.now)) }
{
    if !field.skip {
        return Place::Of(&field.field_type);
    }
    match &field.field_type {
        ValueType::Optional(inner) => Place::Of(inner),
        _ => Place::Of(&field.field_type),
    }
}

// What is read where the field is present.
fn present_place(field: &Field) -> Place<'_>
    ensures { place_view result ≡ of_type (present_type (field_view field.now)) }
{
    match field.helper {
        Helper::Inner => match &field.field_type {
            ValueType::Optional(inner) => Place::Of(inner),
            _ => Place::Nowhere,
        },
        Helper::Nothing | Helper::Whole => Place::Of(&field.field_type),
    }
}

// What a rest holds.
fn rest_place(field: &Field) -> Place<'_>
    ensures { place_view result ≡ of_type (map_value (field_view field.now).field_type) }
{
    match &field.field_type {
        ValueType::Map(_, value) => Place::Of(value),
        _ => Place::Nowhere,
    }
}

fn written_places<'a>(alloc: Global, fields: &[&'a Field]) -> Result<Vec<Place<'a>>, AllocError>
    ensures { IfOk result (λ v. map place_view v.items ≡ written_spots (refs_view fields.now)) }
{
    let mut places = Vec::new(alloc);
    for field in fields {
        places.push(written_place(*field))?;
    }
    Ok(places)
}

fn rest_places<'a>(alloc: Global, fields: &[&'a Field]) -> Result<Vec<Place<'a>>, AllocError>
    ensures { IfOk result (λ v. map place_view v.items ≡ rest_spots (refs_view fields.now)) }
{
    let mut places = Vec::new(alloc);
    for field in fields {
        places.push(rest_place(*field))?;
    }
    Ok(places)
}

fn has_default(default: FieldDefault) -> bool
    ensures { result ≡ has_default (default_view default) }
{
    match default {
        FieldDefault::Nothing => false,
        FieldDefault::Own | FieldDefault::Stated(_) => true,
    }
}

fn has_no_helper(helper: Helper) -> bool
    ensures { result ≡ has_no_helper (helper_view helper) }
{
    match helper {
        Helper::Nothing => true,
        Helper::Inner | Helper::Whole => false,
    }
}

fn may_be_missing(table: &Table<'_>, field: &Field) -> bool
    ensures { result ≡ may_be_missing (leads_to_option (table_view table.now).models) (field_view field.now) }
{
    has_default(field.default)
        || (has_no_helper(field.helper) && leads_to_option(table, &field.field_type))
}

// Whether some field is always written.
fn is_written(fields: &[&Field]) -> bool
    ensures { result ≡ list_any (λ f. not f.skip) (refs_view fields.now) }
{
    for field in fields {
        if !field.skip {
            return true;
        }
    }
    false
}

fn is_once(once: bool, own: &[&Field]) -> bool
    ensures { result ≡ (once && at_most_one (refs_view own.now)) }
{
    once && own.len() <= 1
}

fn is_present(present: bool, table: &Table<'_>, new: &Field, own: &[&Field]) -> bool
    ensures { result ≡ (present && (may_be_missing (leads_to_option (table_view table.now).models) (field_view new.now) || list_any (λ f. not f.skip) (refs_view own.now))) }
{
    present && (may_be_missing(table, new) || is_written(own))
}

// What a new field finds of the old ones that are left.
fn found_by<'a>(
    alloc: Global,
    table: &Table<'_>,
    new: &'a Field,
    before: Found<'a>,
) -> Result<Found<'a>, AllocError>
    ensures { IfOk result (λ f. found_view f ≡ found_by (leads_to_option (table_view table.now).models) (field_view new.now) (found_view before.entry)) }
{
    let own = of_those(alloc, Pick::Own(new), &before.left)?;
    let left = of_those(alloc, Pick::Other(new), &before.left)?;
    let written = written_places(alloc, &own)?;
    let Found {
        left: _,
        once,
        present,
        mut pairs,
    } = before;
    push_each(&mut pairs, &written, present_place(new))?;
    Ok(Found {
        left,
        once: is_once(once, &own),
        present: is_present(present, table, new, &own),
        pairs,
    })
}

fn found_by_all<'a>(
    alloc: Global,
    table: &Table<'_>,
    new: &[&'a Field],
    before: Found<'a>,
) -> Result<Found<'a>, AllocError>
    ensures { IfOk result (λ f. found_view f ≡ gathered (leads_to_option (table_view table.now).models) (refs_view new.now) (found_view before.entry)) }
{
    let mut found = before;
    for field in new {
        found = found_by(alloc, table, *field, found)?;
    }
    Ok(found)
}

fn has_field(fields: &[&Field], name: &str) -> bool
    ensures { result ≡ has_field (refs_view fields.now) name.now }
{
    for field in fields {
        if is_one_of(name, &field.deserialize_names) {
            return true;
        }
    }
    false
}

fn has_fields(fields: &[&Field], names: &[String]) -> bool
    ensures { result ≡ list_all (has_field (refs_view fields.now)) (map string_bytes names.now) }
{
    for name in names {
        if !has_field(fields, name) {
            return false;
        }
    }
    true
}

// Whether each name of the new fields is one of the old ones.
fn names_within(old: &[&Field], new: &[&Field]) -> bool
    ensures { result ≡ names_within (refs_view old.now) (refs_view new.now) }
{
    for field in new {
        if !has_fields(old, &field.deserialize_names) {
            return false;
        }
    }
    true
}

// Whether what the old rests take may be refused.
fn is_rest_taken(rests: &[&Field], closed: bool, old: &[&Field], new: &[&Field]) -> bool
    ensures { result ≡ (not (is_none (refs_view rests.now)) && (closed || not (names_within (refs_view old.now) (refs_view new.now)))) }
{
    !rests.is_empty() && (closed || !names_within(old, new))
}

// Whether a closed struct lacks a field for some old one.
fn is_lost(closed: bool, left: &[&Field]) -> bool
    ensures { result ≡ (closed && not (is_none (refs_view left.now))) }
{
    closed && !left.is_empty()
}

// The first rule that is broken.
fn broken_by(unknown: bool, once: bool, present: bool, rest_taken: bool) -> Option<Broken>
    ensures { option_map broken_view result ≡ broken_by unknown once present rest_taken }
{
    if unknown {
        Some(Broken::Unknown)
    } else if !once {
        Some(Broken::Twice)
    } else if !present {
        Some(Broken::Missing)
    } else if rest_taken {
        Some(Broken::Rest)
    } else {
        None
    }
}

// Each of the places with what each rest holds.
fn push_rests<'a>(
    pairs: &mut Vec<Pair<'a>>,
    old: &[Place<'a>],
    rests: &[&'a Field],
) -> Result<(), AllocError>
    ensures { OnOk result (pairs_view pairs.new.items ≡ pairs_view pairs.old.items ++ with_rests (map place_view old.now) (refs_view rests.now)) }
{
    for rest in rests {
        push_each(pairs, old, rest_place(*rest))?;
    }
    Ok(())
}

// What the new fields find of the old ones.
fn found_of<'a>(
    alloc: Global,
    table: &Table<'_>,
    old: &'a [Field],
    new: &[&'a Field],
) -> Result<Found<'a>, AllocError>
    ensures { IfOk result (λ f. found_view f ≡ gathered (leads_to_option (table_view table.now).models) (refs_view new.now) (start (plain_fields (fields_view old.now)))) }
{
    let before = Found {
        left: of_struct(alloc, Pick::Plain, old)?,
        once: true,
        present: true,
        pairs: Vec::new(alloc),
    };
    let found = found_by_all(alloc, table, new, before)?;
    Ok(found)
}

// The pairs that were found, and those of rests.
fn all_pairs<'a>(
    alloc: Global,
    found: Found<'a>,
    old_rests: &[&'a Field],
    rests: &[&'a Field],
) -> Result<Vec<Pair<'a>>, AllocError>
    ensures { let f = found_view found.entry in
        IfOk result (λ v. pairs_view v.items ≡ f.pairs ++ (with_rests (written_spots f.left) (refs_view rests.now) ++ with_rests (rest_spots (refs_view old_rests.now)) (refs_view rests.now))) }
{
    let lost = written_places(alloc, &found.left)?;
    let taken = rest_places(alloc, old_rests)?;
    let Found {
        left: _,
        once: _,
        present: _,
        mut pairs,
    } = found;
    push_rests(&mut pairs, &lost, rests)?;
    push_rests(&mut pairs, &taken, rests)?;
    Ok(pairs)
}

/// What the fields of a struct lead to, among those of a new one.
pub(crate) fn fields_turn<'a>(
    alloc: Global,
    table: &Table<'_>,
    old: &'a [Field],
    closed: bool,
    new: &'a [Field],
) -> Result<Turn<'a>, AllocError>
    ensures { IfOk result (λ t. turn_view t ≡ typed (fields_verdict (leads_to_option (table_view table.now).models) closed (fields_view old.now) (fields_view new.now))) }
{
    let old_plain = of_struct(alloc, Pick::Plain, old)?;
    let old_rests = of_struct(alloc, Pick::Rest, old)?;
    let plain = of_struct(alloc, Pick::Plain, new)?;
    let rests = of_struct(alloc, Pick::Rest, new)?;
    let found = found_of(alloc, table, old, &plain)?;
    let taken = is_rest_taken(&old_rests, closed, &old_plain, &plain);
    let lost = is_lost(closed, &found.left);
    match broken_by(lost, found.once, found.present, taken) {
        Some(broken) => Ok(Turn::Stops(broken)),
        None => {
            let pairs = all_pairs(alloc, found, &old_rests, &rests)?;
            Ok(Turn::Goes(pairs))
        }
    }
}
