//! Bounds of whole numbers.
ghost use Rattle.std.specs.Prelude.{◌≡◌, ℤ, pos, ◌+ℤ◌, ◌-ℤ◌, int_le, ◌&&◌, Some, None, option_map, if◌then◌else◌};
ghost use Rattle.std.specs.Ordering.{int_eq};
ghost use Rattle.convert_defs.specs.IntegerRow.{least_of as least_in, greatest_of as greatest_in, greater as greater_of, lesser as lesser_of, lower as lower_of, upper as upper_of, is_value as is_value_of, or_else as or_else_of, given_not_below as given_not_below_of, given_not_above as given_not_above_of};
ghost use Rattle.schema_types.specs.View.{numbers_view};
ghost use Rattle.integer_rows.specs.Bounds.{IsAbove, IsBelow, IsLeast, IsGreatest, after, before, last_number, first_number};

use schema_types::NumberValidation;

// One further, or the last number.
fn above(number: i128) -> i128
    ensures { IsAbove number result }
{
    if number < i128::MAX {
        number + 1
    } else {
        i128::MAX
    }
}

// One below, or the first number.
fn below(number: i128) -> i128
    ensures { IsBelow number result }
{
    if number > i128::MIN {
        number - 1
    } else {
        i128::MIN
    }
}

fn greater(a: Option<i128>, b: i128) -> i128
    ensures value { Some result ≡ greater_of a (Some b) }
    ensures far { greater_of a (Some after) ≡ Some after }
    ensures near { greater_of a (Some last_number) ≡ Some last_number }
{
    match a {
        Some(a) => { if a <= b { b } else { a } }
        None => b,
    }
}

fn lesser(a: Option<i128>, b: i128) -> i128
    ensures value { Some result ≡ lesser_of a (Some b) }
    ensures far { lesser_of a (Some before) ≡ Some before }
    ensures near { lesser_of a (Some first_number) ≡ Some first_number }
{
    match a {
        Some(a) => { if a <= b { a } else { b } }
        None => b,
    }
}

/// The least number by the keywords of numbers.
pub fn least_of(numbers: NumberValidation) -> Option<i128>
    ensures { IsLeast (least_in (numbers_view numbers)) result }
{
    match numbers.exclusive_minimum {
        Some(number) => Some(greater(numbers.minimum, above(number))),
        None => numbers.minimum,
    }
}

/// The greatest number by the keywords of numbers.
pub fn greatest_of(numbers: NumberValidation) -> Option<i128>
    ensures { IsGreatest (greatest_in (numbers_view numbers)) result }
{
    match numbers.exclusive_maximum {
        Some(number) => Some(lesser(numbers.maximum, below(number))),
        None => numbers.maximum,
    }
}

/// The bound, or the end where it is below.
pub fn lower(bound: Option<i128>, end: i128) -> i128
    ensures { result ≡ lower_of bound end }
{
    match bound {
        Some(bound) => { if bound <= end { end } else { bound } }
        None => end,
    }
}

/// The bound, or the end where it is above.
pub fn upper(bound: Option<i128>, end: i128) -> i128
    ensures { result ≡ upper_of bound end }
{
    match bound {
        Some(bound) => { if bound <= end { bound } else { end } }
        None => end,
    }
}

pub fn is_one(bound: Option<i128>) -> bool
    ensures { result ≡ is_value_of (pos 1) bound }
{
    match bound {
        Some(bound) => 1 == bound,
        None => false,
    }
}

pub fn or_else(bound: Option<i128>, end: i128) -> Option<i128>
    ensures { result ≡ or_else_of bound (Some end) }
{
    match bound {
        Some(bound) => Some(bound),
        None => Some(end),
    }
}

pub fn is_not_below(end: i128, bound: Option<i128>) -> bool
    ensures { result ≡ given_not_below_of end bound }
{
    match bound {
        Some(bound) => end <= bound,
        None => true,
    }
}

pub fn is_not_above(end: i128, bound: Option<i128>) -> bool
    ensures { result ≡ given_not_above_of end bound }
{
    match bound {
        Some(bound) => bound <= end,
        None => true,
    }
}
