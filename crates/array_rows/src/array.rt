//! Arrays: of one size, or open.
ghost use Rattle.std.specs.Prelude.{◌≡◌, ◌&&◌, ◌||◌, not, nat_eq, is_some, None, IfOk, map, option_map};
ghost use Rattle.schema_defs.specs.Layer.{is_given};
ghost use Rattle.schema_defs.specs.Texts.{Relations};
ghost use Rattle.schema_types.specs.View.{array_view, lists_of};
ghost use Rattle.convert_defs.specs.Row.{add_notes};
ghost use Rattle.convert_defs.specs.Owners.{one_size as one_size_of, fixed_size as fixed_size_of, each_part as each_part_of, is_true as is_true_of, above_zero as above_zero_of, open_list as open_list_of, is_by_place as is_by_place_of, array_finding as array_finding_of, sized_finding};
ghost use Rattle.row_findings.specs.View.{note_view, row_view, finding_view};
ghost use Rattle.array_rows.specs.Parts.{rules_in, places_in, rest_in, contains_in, is_bounded as is_bounded_of};

use crate::places::{each_part, fixed_finding, is_by_place};
use row_findings::{Cause, Finding, Note, NoteKind, Row, Way, anything, noted, with_note};
use schema_types::ArrayValidation;
use std::alloc::{AllocError, Global};

/// The row of arrays by the keywords of lists, with the notes that are given before.
#[tactic(auto, using(row_findings::proofs::PlainRows::plain_noted))]
pub fn array_finding<'d>(
    alloc: Global,
    notes: Vec<Note<'d>>,
    lists: Option<&'d ArrayValidation>,
) -> Result<Finding<'d>, AllocError>
    ensures { IfOk result (λ f. (r : Relations) → finding_view r f ≡ add_notes (map note_view notes.entry.items) (array_finding_of (lists_of (option_map (λ a. array_view a.now) lists.entry)))) }
{
    match lists {
        None => Ok(noted(alloc, notes, Row::Vec(anything()))),
        Some(lists) => {
            let finding = sized_list(alloc, notes, lists)?;
            Ok(finding)
        }
    }
}

#[tactic(auto, using(crate::proofs::Sizes::parts_seen))]
fn sized_list<'d>(
    alloc: Global,
    notes: Vec<Note<'d>>,
    lists: &'d ArrayValidation,
) -> Result<Finding<'d>, AllocError>
    ensures { IfOk result (λ f. (r : Relations) → finding_view r f ≡ add_notes (map note_view notes.entry.items) (array_finding_of (array_view lists.now))) }
{
    match fixed_size(lists) {
        Some(places) => {
            let finding = fixed_finding(alloc, notes, lists, places)?;
            Ok(finding)
        }
        None => {
            let finding = open_finding(alloc, notes, lists)?;
            Ok(finding)
        }
    }
}

// The number of places, where both sizes are that number and it is above 0.
fn fixed_size(lists: &ArrayValidation) -> Option<u32>
    ensures { result ≡ fixed_size_of (rules_in (array_view lists.now)) (contains_in (array_view lists.now)) }
{
    if lists.unique_items.is_none() && lists.contains.is_none() {
        one_size(lists.min_items, lists.max_items)
    } else {
        None
    }
}

fn one_size(least: Option<u32>, most: Option<u32>) -> Option<u32>
    ensures { result ≡ one_size_of least most }
{
    match least {
        Some(least) => size_up_to(least, most),
        None => None,
    }
}

#[tactic(auto, using(crate::proofs::Sizes::one_size_some, crate::proofs::Sizes::one_size_none))]
fn size_up_to(least: u32, most: Option<u32>) -> Option<u32>
    ensures { result ≡ one_size_of (Some least) most }
{
    match most {
        Some(most) => {
            if is_one_size(least, most) {
                Some(least)
            } else {
                None
            }
        }
        None => None,
    }
}

fn is_one_size(least: u32, most: u32) -> bool
    ensures { result ≡ (not (nat_eq least 0) && nat_eq least most) }
{
    least != 0 && least == most
}

fn is_true(flag: Option<bool>) -> bool
    ensures { result ≡ is_true_of flag }
{
    match flag {
        Some(flag) => flag,
        None => false,
    }
}

#[tactic(auto, using(crate::proofs::Sizes::above_zero_some))]
fn above_zero(size: Option<u32>) -> bool
    ensures { result ≡ above_zero_of size }
{
    match size {
        Some(size) => size != 0,
        None => false,
    }
}

fn is_bounded(lists: &ArrayValidation) -> bool
    ensures { result ≡ is_bounded_of (rules_in (array_view lists.now)) }
{
    is_true(lists.unique_items) || above_zero(lists.min_items) || lists.max_items.is_some()
}

fn is_unsized(lists: &ArrayValidation) -> bool
    ensures { result ≡ (is_by_place_of (places_in (array_view lists.now)) || is_given (contains_in (array_view lists.now))) }
{
    is_by_place(lists) || lists.contains.is_some()
}

fn open_list<'d>(lists: &'d ArrayValidation) -> Row<'d>
    ensures { (r : Relations) → row_view r result ≡ open_list_of (rules_in (array_view lists.now)) (each_part_of (places_in (array_view lists.now))) }
{
    if is_true(lists.unique_items) {
        Row::Set(each_part(lists))
    } else {
        Row::Vec(each_part(lists))
    }
}

// Where there is no one size.
#[tactic(auto, using(row_findings::proofs::PlainRows::plain_noted))]
fn open_finding<'d>(
    alloc: Global,
    notes: Vec<Note<'d>>,
    lists: &'d ArrayValidation,
) -> Result<Finding<'d>, AllocError>
    ensures { IfOk result (λ f. (r : Relations) → finding_view r f ≡ add_notes (map note_view notes.entry.items) (sized_finding (places_in (array_view lists.now)) (rest_in (array_view lists.now)) (contains_in (array_view lists.now)) (rules_in (array_view lists.now)) None)) }
{
    if is_unsized(lists) {
        return Ok(noted(alloc, notes, Row::Refused(Cause::Array)));
    }
    let noticed = with_note(notes, is_bounded(lists), Way::Widened, NoteKind::Array)?;
    Ok(noted(alloc, noticed, open_list(lists)))
}
