//! The parts of lists: one for each item, or one a place.
ghost use Rattle.std.specs.Prelude.{◌≡◌, Some, IfOk, map, nat_lt};
ghost use Rattle.schema_defs.specs.Schema.{schemas};
ghost use Rattle.schema_defs.specs.Texts.{Relations};
ghost use Rattle.schema_types.specs.View.{array_view, items_view, schemas_view, maybe_view};
ghost use Rattle.convert_defs.specs.Row.{add_notes};
ghost use Rattle.convert_defs.specs.Owners.{each_part as each_part_of, is_by_place as is_by_place_of, listed_parts as listed_parts_of, listed_places, unlisted as unlisted_of, filled_places as filled_places_of, fixed_row as fixed_row_of, sized_finding};
ghost use Rattle.row_findings.specs.View.{note_view, part_view, row_view, finding_view};
ghost use Rattle.array_rows.specs.Parts.{rules_in, places_in, rest_in, contains_in};

use row_findings::{
    Finding, Keyword, Note, Part, PartKind, Row, Source, Steps, anything, noted, part_under,
};
use schema_types::{ArrayValidation, Items, Schema};
use std::alloc::{AllocError, Global};

/// The part of each item. It takes no memory.
pub fn each_part<'d>(lists: &'d ArrayValidation) -> Part<'d>
    ensures { part_view result ≡ each_part_of (places_in (array_view lists.now)) }
{
    match &lists.items {
        Some(items) => item_part(items),
        None => anything(),
    }
}

fn item_part<'d>(items: &'d Items) -> Part<'d>
    ensures { part_view result ≡ each_part_of (items_view items.now) }
{
    match items {
        Items::One(schema) => Part {
            kind: PartKind::Child,
            steps: Steps::Under(Keyword::Items),
            source: Source::Written(schema),
        },
        Items::Many(_) => anything(),
    }
}

/// Whether schemas are listed, one a place. It takes no memory.
pub fn is_by_place(lists: &ArrayValidation) -> bool
    ensures { result ≡ is_by_place_of (places_in (array_view lists.now)) }
{
    match &lists.items {
        Some(items) => are_places(items),
        None => false,
    }
}

fn are_places(items: &Items) -> bool
    ensures { result ≡ is_by_place_of (items_view items.now) }
{
    match items {
        Items::One(_) => false,
        Items::Many(_) => true,
    }
}

// Of so many places those that are listed.
#[tactic(auto, using(crate::proofs::Sizes::listed_none, crate::proofs::Sizes::listed_end, crate::proofs::Sizes::listed_step))]
fn listed_parts<'d>(
    alloc: Global,
    listed: &'d Vec<Schema>,
    places: u32,
) -> Result<Vec<Part<'d>>, AllocError>
    ensures { IfOk result (λ v. map part_view v.items ≡ listed_parts_of 0 places (schemas (schemas_view listed.now.items))) }
{
    let mut parts = Vec::new(alloc);
    let mut left = listed.as_slice();
    let mut place: usize = 0;
    let mut more = places;
    while let Some((schema, rest)) = left.split_first() {
        if more == 0 {
            return Ok(parts);
        }
        parts.push(Part {
            kind: PartKind::Child,
            steps: Steps::Placed(Keyword::Items, place),
            source: Source::Written(schema),
        })?;
        left = rest;
        place += 1;
        more -= 1;
    }
    Ok(parts)
}

#[tactic(auto, using(crate::proofs::Sizes::listed_counted))]
fn is_short(listed: &Vec<Schema>, places: u32) -> bool
    ensures { result ≡ nat_lt (listed_places (schemas (schemas_view listed.now.items))) places }
{
    listed.len() < places as usize
}

// How many of so many places are not listed.
#[tactic(auto, using(crate::proofs::Sizes::unlisted_less))]
fn unlisted(listed: &Vec<Schema>, places: u32) -> u32
    ensures { result ≡ unlisted_of places (schemas (schemas_view listed.now.items)) }
{
    let count = listed.len();
    if count < places as usize {
        places - count as u32
    } else {
        0
    }
}

fn filled(items: &Items, places: u32) -> u32
    ensures { result ≡ filled_places_of places (items_view items.now) }
{
    match items {
        Items::One(_) => 0,
        Items::Many(listed) => { if is_short(listed, places) { places } else { 0 } }
    }
}

// The places of a list that is shorter than its sizes, or 0.
fn filled_places(lists: &ArrayValidation, places: u32) -> u32
    ensures { result ≡ filled_places_of places (places_in (array_view lists.now)) }
{
    match &lists.items {
        Some(items) => filled(items, places),
        None => 0,
    }
}

fn fixed_items<'d>(
    alloc: Global,
    items: &'d Items,
    rest: &'d Option<Box<Schema>>,
    places: u32,
) -> Result<Row<'d>, AllocError>
    ensures { IfOk result (λ w. (r : Relations) → row_view r w ≡ fixed_row_of places (items_view items.now) (maybe_view rest.now)) }
{
    match items {
        Items::One(schema) => Ok(Row::Array(
            Part {
                kind: PartKind::Child,
                steps: Steps::Under(Keyword::Items),
                source: Source::Written(schema),
            },
            places,
        )),
        Items::Many(listed) => {
            let parts = listed_parts(alloc, listed, places)?;
            Ok(Row::Tuple {
                listed: parts,
                more: unlisted(listed, places),
                rest: part_under(Keyword::AdditionalItems, rest),
            })
        }
    }
}

fn fixed_row<'d>(
    alloc: Global,
    lists: &'d ArrayValidation,
    places: u32,
) -> Result<Row<'d>, AllocError>
    ensures { IfOk result (λ w. (r : Relations) → row_view r w ≡ fixed_row_of places (places_in (array_view lists.now)) (rest_in (array_view lists.now))) }
{
    match &lists.items {
        Some(items) => {
            let row = fixed_items(alloc, items, &lists.additional_items, places)?;
            Ok(row)
        }
        None => Ok(Row::Array(anything(), places)),
    }
}

/// Lists of one size, with the notes that are given before.
#[tactic(auto, using(row_findings::proofs::PlainRows::plain_noted))]
pub fn fixed_finding<'d>(
    alloc: Global,
    notes: Vec<Note<'d>>,
    lists: &'d ArrayValidation,
    places: u32,
) -> Result<Finding<'d>, AllocError>
    ensures { IfOk result (λ f. (r : Relations) → finding_view r f ≡ add_notes (map note_view notes.entry.items) (sized_finding (places_in (array_view lists.now)) (rest_in (array_view lists.now)) (contains_in (array_view lists.now)) (rules_in (array_view lists.now)) (Some places))) }
{
    let row = fixed_row(alloc, lists, places)?;
    let finding = noted(alloc, notes, row);
    Ok(Finding {
        row: finding.row,
        notes: finding.notes,
        patterns: finding.patterns,
        branches: finding.branches,
        places: filled_places(lists, places),
    })
}
