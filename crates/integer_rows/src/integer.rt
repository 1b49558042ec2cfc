//! The row of whole numbers.
ghost use Rattle.std.specs.Prelude.{◌≡◌, IfOk, option_map, is_some};
ghost use Rattle.schema_defs.specs.Texts.{Relations};
ghost use Rattle.entry_defs.specs.Layer.{integer_range};
ghost use Rattle.entry_defs.specs.Entry.{integer_entry};
ghost use Rattle.convert_defs.specs.Row.{noted as noted_as, leaf_row};
ghost use Rattle.convert_defs.specs.IntegerRow.{integer_of as integer_in, integer_notes, numbers_or_none, format_range, is_multiple as is_multiple_of, has_multiple, least_of as least_in, greatest_of as greatest_in, in_i64 as in_i64_of, bounded as bounded_of, format_or_i64 as format_or_i64_of, lies_in as lies_in_of};
ghost use Rattle.entry_types.specs.View.{integer_view};
ghost use Rattle.schema_types.specs.View.{numbers_view};
ghost use Rattle.row_findings.specs.Given.{plain_view};
ghost use Rattle.row_findings.specs.View.{finding_view};
ghost use Rattle.integer_rows.specs.Bounds.{ends_view, chosen_by, admitted_by, is_widened as is_widened_by, is_narrowed as is_narrowed_by, IsLeast, IsGreatest};

use crate::bounds::{greatest_of, least_of, lower, upper};
use crate::choice::chosen;
use crate::kinds::{Ends, ends_of, format_name};
use entry_types::IntName;
use row_findings::{Finding, Keywords, Leaf, NoteKind, Row, Way, noted, with_note};
use schema_types::NumberValidation;
use std::alloc::{AllocError, Global};

// What is given of whole numbers: whether `multipleOf` stands, and says something; the bounds; and the type of the format.
#[derive(Clone, Copy)]
struct Given {
    multiple: bool,
    coarse: bool,
    least: Option<i128>,
    greatest: Option<i128>,
    format: Option<IntName>,
}

/// Whole numbers: the type that their bounds and the format choose, with notes where it takes other numbers.
pub fn integer_finding<'d>(
    alloc: Global,
    keywords: &Keywords<'d>,
) -> Result<Finding<'d>, AllocError>
    ensures { IfOk result (λ f. (r : Relations) → finding_view r f ≡ noted_as (integer_notes (plain_view keywords.now)) (leaf_row (integer_entry (integer_in (plain_view keywords.now))))) }
{
    let given = given_in(keywords);
    let name = chosen(given.multiple, given.least, given.greatest, given.format);
    let widened = with_note(
        Vec::new(alloc),
        is_widened(&given, name),
        Way::Widened,
        NoteKind::Integer,
    )?;
    let notes = with_note(
        widened,
        is_narrowed(&given, name),
        Way::Narrowed,
        NoteKind::Integer,
    )?;
    Ok(noted(alloc, notes, Row::Leaf(Leaf::Integer(name))))
}

fn given_in(keywords: &Keywords<'_>) -> Given
    ensures multiple { result.multiple ≡ is_some (numbers_or_none (plain_view keywords.now).numbers).multiple_of }
    ensures coarse { result.coarse ≡ has_multiple (numbers_or_none (plain_view keywords.now).numbers) }
    ensures least { IsLeast (least_in (numbers_or_none (plain_view keywords.now).numbers)) result.least }
    ensures greatest { IsGreatest (greatest_in (numbers_or_none (plain_view keywords.now).numbers)) result.greatest }
    ensures format { option_map (λ g. integer_range (integer_view g)) result.format ≡ format_range (plain_view keywords.now) }
{
    let numbers = numbers_in(keywords);
    Given {
        multiple: numbers.multiple_of.is_some(),
        coarse: is_multiple(numbers.multiple_of),
        least: least_of(numbers),
        greatest: greatest_of(numbers),
        format: format_in(keywords),
    }
}

pub fn numbers_in(keywords: &Keywords<'_>) -> NumberValidation
    ensures { numbers_view result ≡ numbers_or_none (plain_view keywords.now).numbers }
{
    match keywords.numbers {
        Some(numbers) => numbers,
        None => NumberValidation {
            multiple_of: None,
            maximum: None,
            exclusive_maximum: None,
            minimum: None,
            exclusive_minimum: None,
        },
    }
}

fn is_multiple(multiple: Option<u64>) -> bool
    ensures { result ≡ is_multiple_of multiple }
{
    match multiple {
        Some(multiple) => multiple != 1,
        None => false,
    }
}

pub fn format_in(keywords: &Keywords<'_>) -> Option<IntName>
    ensures { option_map (λ g. integer_range (integer_view g)) result ≡ format_range (plain_view keywords.now) }
{
    match keywords.format {
        Some(name) => format_name(name),
        None => None,
    }
}

// ---- the note: whether the i64 numbers of one range lie in another

fn in_i64(ends: Ends) -> Ends
    ensures { ends_view result ≡ in_i64_of (ends_view ends) }
{
    within(Some(ends.least), Some(ends.greatest), ends_of(IntName::I64))
}

fn within(least: Option<i128>, greatest: Option<i128>, ends: Ends) -> Ends
    ensures { ends_view result ≡ bounded_of least greatest (ends_view ends) }
{
    Ends {
        least: lower(least, ends.least),
        greatest: upper(greatest, ends.greatest),
    }
}

fn format_or_i64(format: Option<IntName>) -> Ends
    ensures { ends_view result ≡ format_or_i64_of (option_map (λ g. integer_range (integer_view g)) format) }
{
    match format {
        Some(format) => in_i64(ends_of(format)),
        None => ends_of(IntName::I64),
    }
}

fn admitted(given: &Given) -> Ends
    ensures { ends_view result ≡ admitted_by given.now.least given.now.greatest (option_map (λ g. integer_range (integer_view g)) given.now.format) }
{
    within(given.least, given.greatest, format_or_i64(given.format))
}

fn lies_in(inner: Ends, outer: Ends) -> bool
    ensures { result ≡ lies_in_of (ends_view inner) (ends_view outer) }
{
    inner.greatest < inner.least || (outer.least <= inner.least && inner.greatest <= outer.greatest)
}

// Whether the type takes an i64 number that the schema doesn't admit.
fn is_widened(given: &Given, name: IntName) -> bool
    ensures { result ≡ is_widened_by given.now.coarse given.now.least given.now.greatest (option_map (λ g. integer_range (integer_view g)) given.now.format) (integer_view name) }
{
    given.coarse || !lies_in(in_i64(ends_of(name)), admitted(given))
}

// Whether the type doesn't take an i64 number that the schema admits.
fn is_narrowed(given: &Given, name: IntName) -> bool
    ensures { result ≡ is_narrowed_by given.now.least given.now.greatest (option_map (λ g. integer_range (integer_view g)) given.now.format) (integer_view name) }
{
    !lies_in(admitted(given), in_i64(ends_of(name)))
}
