//! Whole numbers within the bounds of keywords.
ghost use Rattle.std.specs.Prelude.{◌≡◌, option_map};
ghost use Rattle.convert_defs.specs.IntegerRow.{greatest_of as greatest_in, least_of as least_in, or_else as or_else_of};
ghost use Rattle.convert_defs.specs.Values.{is_bounded as is_bounded_of, is_from as is_from_of, is_up_to as is_up_to_of};
ghost use Rattle.row_findings.specs.Given.{plain_view};
ghost use Rattle.schema_types.specs.View.{numbers_view};

use crate::integer::{format_in, numbers_in};
use crate::kinds::{greatest_end, least_end};
use row_findings::Keywords;
use schema_types::NumberValidation;

// Whether the number is none below the least one, or the end where none is given.
#[tactic(auto, using(crate::proofs::Between::from_both, crate::proofs::Between::from_above))]
fn is_from(numbers: NumberValidation, end: Option<i128>, number: i128) -> bool
    ensures { result ≡ is_from_of (or_else_of (least_in (numbers_view numbers)) end) number }
{
    match (numbers.minimum, numbers.exclusive_minimum) {
        (Some(least), Some(below)) => least <= number && below < number,
        (Some(least), None) => least <= number,
        (None, Some(below)) => below < number,
        (None, None) => match end {
            Some(end) => end <= number,
            None => true,
        },
    }
}

// The same of the greatest.
#[tactic(auto, using(crate::proofs::Between::up_to_both, crate::proofs::Between::up_to_below))]
fn is_up_to(numbers: NumberValidation, end: Option<i128>, number: i128) -> bool
    ensures { result ≡ is_up_to_of (or_else_of (greatest_in (numbers_view numbers)) end) number }
{
    match (numbers.maximum, numbers.exclusive_maximum) {
        (Some(greatest), Some(above)) => number <= greatest && number < above,
        (Some(greatest), None) => number <= greatest,
        (None, Some(above)) => number < above,
        (None, None) => match end {
            Some(end) => number <= end,
            None => true,
        },
    }
}

/// Whether a number lies within the bounds of the keywords; where none is given, the end of the format bounds it. It takes no memory.
pub fn is_bounded(keywords: &Keywords<'_>, number: i128) -> bool
    ensures { result ≡ is_bounded_of (plain_view keywords.now) number }
{
    let numbers = numbers_in(keywords);
    match format_in(keywords) {
        Some(format) => {
            is_from(numbers, Some(least_end(format)), number)
                && is_up_to(numbers, Some(greatest_end(format)), number)
        }
        None => is_from(numbers, None, number) && is_up_to(numbers, None, number),
    }
}
