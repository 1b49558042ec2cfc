//! The type that bounds and a format choose.
ghost use Rattle.std.specs.Prelude.{◌≡◌, option_map, not, ◌&&◌, pos, if◌then◌else◌};
ghost use Rattle.entry_defs.specs.Layer.{integer_range};
ghost use Rattle.convert_defs.specs.IntegerRow.{by_bounds as by_bounds_of, from_bounds as from_bounds_of, by_format as by_format_of, given_not_below, given_not_above, nonzero_of, kind_of, name_or, is_value as is_value_of};
ghost use Rattle.entry_defs.specs.Entry.{i64 as i64_name};
ghost use Rattle.entry_types.specs.View.{integer_view};
ghost use Rattle.integer_rows.specs.Bounds.{chosen_by, kind_view, nonzero_in};

use crate::bounds::{is_not_above, is_not_below, is_one, or_else};
use crate::kinds::{first_kind, greatest_end, least_end, nonzero_kind};
use entry_types::IntName;

/// The type that the bounds and the format choose; `multiple` says that `multipleOf` stands.
pub fn chosen(
    multiple: bool,
    least: Option<i128>,
    greatest: Option<i128>,
    format: Option<IntName>,
) -> IntName
    ensures { integer_view result ≡ chosen_by multiple least greatest (option_map (λ g. integer_range (integer_view g)) format) }
{
    match format {
        Some(format) => by_format(multiple, least, greatest, format),
        None => from_bounds(least, greatest),
    }
}

fn by_format(
    multiple: bool,
    least: Option<i128>,
    greatest: Option<i128>,
    format: IntName,
) -> IntName
    ensures { integer_view result ≡ by_format_of multiple least greatest (integer_range (integer_view format)) }
{
    if is_within(multiple, least, greatest, format) {
        of_format(least, format)
    } else {
        from_bounds(
            or_else(least, least_end(format)),
            or_else(greatest, greatest_end(format)),
        )
    }
}

fn is_within(multiple: bool, least: Option<i128>, greatest: Option<i128>, format: IntName) -> bool
    ensures { result ≡ (not multiple && given_not_below (integer_range (integer_view format)).least least && given_not_above (integer_range (integer_view format)).greatest greatest) }
{
    !multiple
        && is_not_below(least_end(format), least)
        && is_not_above(greatest_end(format), greatest)
}

fn of_format(least: Option<i128>, format: IntName) -> IntName
    ensures { integer_view result ≡ (if is_value_of (pos 1) least then nonzero_of (integer_range (integer_view format)) else name_or i64_name (kind_of (integer_range (integer_view format)))) }
{
    let kind = kind_of_format(format);
    if is_one(least) {
        nonzero_or(kind)
    } else {
        kind_or(kind)
    }
}

fn kind_of_format(format: IntName) -> Option<IntName>
    ensures { option_map kind_view result ≡ kind_of (integer_range (integer_view format)) }
{
    let least = least_end(format);
    let greatest = greatest_end(format);
    first_kind(Some(least), Some(greatest))
}

fn nonzero_or(kind: Option<IntName>) -> IntName
    ensures { integer_view result ≡ nonzero_in (option_map kind_view kind) }
{
    match kind {
        Some(kind) => nonzero_kind(kind),
        None => IntName::NonZeroU64,
    }
}

fn kind_or(kind: Option<IntName>) -> IntName
    ensures { integer_view result ≡ name_or i64_name (option_map kind_view kind) }
{
    match kind {
        Some(kind) => kind,
        None => IntName::I64,
    }
}

fn from_bounds(least: Option<i128>, greatest: Option<i128>) -> IntName
    ensures { integer_view result ≡ from_bounds_of least greatest }
{
    if is_one(least) {
        IntName::NonZeroU64
    } else {
        by_bounds(least, greatest)
    }
}

#[tactic(auto, using(crate::proofs::FirstKind::by_bounds_seen))]
fn by_bounds(least: Option<i128>, greatest: Option<i128>) -> IntName
    ensures { integer_view result ≡ by_bounds_of least greatest }
{
    if least.is_none() && greatest.is_none() {
        IntName::I64
    } else {
        kind_or(first_kind(least, greatest))
    }
}
