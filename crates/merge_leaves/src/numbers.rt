//! Merging the keywords of numbers.
ghost use Rattle.std.specs.Prelude.{◌≡◌, IfOk, option_map};
ghost use Rattle.schema_types.specs.View.{numbers_view};
ghost use Rattle.merge_defs.specs.Outcome.{where_both};
ghost use Rattle.merge_defs.specs.Alike.{same_numbers as same_numbers_of};
ghost use Rattle.merge_defs.specs.Leaves.{bounded as bounded_of, numbers_of as numbers_of_both, two_numbers as two_numbers_of};
ghost use Rattle.merge_parts.specs.View.{notes_view};
ghost use Rattle.merge_parts.specs.Steps.{Steps};
ghost use Rattle.merge_leaves.specs.View.{bound_view};

use crate::bounds::{Bound, both_lower, both_upper, bounds_cross, if_exclusive, if_inclusive};
use crate::multiples::both_multiples;
use merge_parts::{MergeKind, MergeNote, Way, never_unless, note_if};
use schema_types::NumberValidation;
use std::alloc::AllocError;

fn same_numbers(first: &NumberValidation, second: &NumberValidation) -> bool
    ensures { result ≡ same_numbers_of (numbers_view first.now) (numbers_view second.now) }
{
    first.multiple_of == second.multiple_of
        && first.maximum == second.maximum
        && first.exclusive_maximum == second.exclusive_maximum
        && first.minimum == second.minimum
        && first.exclusive_minimum == second.exclusive_minimum
}

// The keywords of a multiple and of bounds, where one of them stands.
fn numbers_of(multiple_of: Option<u64>, low: Bound, high: Bound) -> Option<NumberValidation>
    ensures { option_map numbers_view result ≡ numbers_of_both multiple_of (bound_view low) (bound_view high) }
{
    match (multiple_of, low, high) {
        (None, Bound::Unbounded, Bound::Unbounded) => None,
        _ => Some(NumberValidation {
            multiple_of,
            maximum: if_inclusive(high),
            exclusive_maximum: if_exclusive(high),
            minimum: if_inclusive(low),
            exclusive_minimum: if_exclusive(low),
        }),
    }
}

fn bounded(
    notes: &mut Vec<MergeNote>,
    is_whole: bool,
    multiple_of: Option<u64>,
    low: Bound,
    high: Bound,
) -> Result<Option<Option<NumberValidation>>, AllocError>
    ensures { IfOk result (λ o. Steps (notes_view notes.old.items) (notes_view notes.new.items) (bounded_of is_whole multiple_of (bound_view low) (bound_view high)) (option_map (option_map numbers_view) o)) }
{
    if bounds_cross(low, high) {
        never_unless(notes, is_whole, MergeKind::Clash)?;
        return Ok(None);
    }
    Ok(Some(numbers_of(multiple_of, low, high)))
}

#[tactic(auto, using(merge_parts::proofs::Steps::after_notes))]
fn two_numbers(
    notes: &mut Vec<MergeNote>,
    is_whole: bool,
    first: &NumberValidation,
    second: &NumberValidation,
) -> Result<Option<Option<NumberValidation>>, AllocError>
    ensures { IfOk result (λ o. Steps (notes_view notes.old.items) (notes_view notes.new.items) (two_numbers_of is_whole (numbers_view first.now) (numbers_view second.now)) (option_map (option_map numbers_view) o)) }
{
    if same_numbers(first, second) {
        return Ok(Some(Some(*first)));
    }
    let multiple = both_multiples(first.multiple_of, second.multiple_of);
    note_if(notes, multiple.is_wide, Way::Widened, MergeKind::Integer)?;
    let low = both_lower(
        first.minimum,
        second.minimum,
        first.exclusive_minimum,
        second.exclusive_minimum,
    );
    let high = both_upper(
        first.maximum,
        second.maximum,
        first.exclusive_maximum,
        second.exclusive_maximum,
    );
    let found = bounded(notes, is_whole, multiple.value, low, high)?;
    Ok(found)
}

/// The numbers that both sides admit, where `is_whole` says that the merged type is integer; where one side alone says something of numbers,
/// that. A least common multiple past 64 bits is left out, with a note.
pub fn both_numbers(
    notes: &mut Vec<MergeNote>,
    is_whole: bool,
    first: &Option<NumberValidation>,
    second: &Option<NumberValidation>,
) -> Result<Option<Option<NumberValidation>>, AllocError>
    ensures { IfOk result (λ o. Steps (notes_view notes.old.items) (notes_view notes.new.items) (where_both (two_numbers_of is_whole) (option_map numbers_view first.now) (option_map numbers_view second.now)) (option_map (option_map numbers_view) o)) }
{
    match (first, second) {
        (None, None) => Ok(Some(None)),
        (None, Some(numbers)) => Ok(Some(Some(*numbers))),
        (Some(numbers), None) => Ok(Some(Some(*numbers))),
        (Some(numbers), Some(others)) => two_numbers(notes, is_whole, numbers, others),
    }
}
