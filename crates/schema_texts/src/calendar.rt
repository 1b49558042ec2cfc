//! The formats `date` and `date-time` (RFC 3339, in a narrower profile).
ghost use Rattle.std.specs.Prelude.{◌≡◌, ◌<◌, ◌≤◌, ◌&&◌, nat_le, drop};
ghost use Rattle.schema_defs.specs.Formats.{are_clock_parts, are_offset_parts, is_date, is_date_time, is_day, is_fraction_and_zone, is_zone, leading_digits, pieces};

use crate::pieces::{count_digits, cut, has_more, is_number_to, number};
use jiff::civil::Date;

/// Whether the text is a day of the Gregorian calendar, as `2023-12-31`.
#[tactic(auto, unfolding(schema_defs::specs::Formats::is_date))]
pub(crate) fn is_date(text: &[u8]) -> bool
    ensures { result ≡ is_date text.now }
{
    let Some((year_text, after_year)) = cut(text, b'-') else {
        return false;
    };
    let Some((month_text, day_text)) = cut(after_year, b'-') else {
        return false;
    };
    if has_more(day_text, b'-') {
        return false;
    }
    let Some(year) = number(year_text, 4) else {
        return false;
    };
    let Some(month) = number(month_text, 2) else {
        return false;
    };
    let Some(day) = number(day_text, 2) else {
        return false;
    };
    is_day(year, month, day)
}

// Whether the calendar has such a day.
fn is_day(year: u16, month: u16, day: u16) -> bool
    requires year_fits { year < 10000 }
    requires month_fits { month < 100 }
    requires day_fits { day < 100 }
    ensures { result ≡ is_day year month day }
{
    Date::new(year as i16, month as i8, day as i8).is_ok()
}

/// Whether the text is a date, `T`, a time of day and a zone.
#[tactic(auto, using(crate::proofs::Parts::date_time_parts, crate::proofs::Parts::date_time_short))]
pub(crate) fn is_date_time(text: &[u8]) -> bool
    ensures { result ≡ is_date_time text.now }
{
    if text.len() < 19 {
        return false;
    }
    let (date, after_date) = text.split_at(10);
    let (mark, after_mark) = after_date.split_at(1);
    let (clock, rest) = after_mark.split_at(8);
    if !is_date(date) {
        return false;
    }
    if mark != b"T".as_slice() {
        return false;
    }
    if !is_clock(clock) {
        return false;
    }
    is_fraction_and_zone(rest)
}

// Whether it is a time of day to 23:59:59.
fn is_clock(text: &[u8]) -> bool
    ensures { result ≡ are_clock_parts (pieces 58 text.now) }
{
    let Some((hour, after_hour)) = cut(text, b':') else {
        return false;
    };
    let Some((minute, second)) = cut(after_hour, b':') else {
        return false;
    };
    if has_more(second, b':') {
        return false;
    }
    is_number_to(hour, 2, 23) && is_number_to(minute, 2, 59) && is_number_to(second, 2, 59)
}

// Whether it is a distance to 23:59.
fn is_offset(text: &[u8]) -> bool
    ensures { result ≡ are_offset_parts (pieces 58 text.now) }
{
    let Some((hour, minute)) = cut(text, b':') else {
        return false;
    };
    if has_more(minute, b':') {
        return false;
    }
    is_number_to(hour, 2, 23) && is_number_to(minute, 2, 59)
}

// Whether it is `Z`, or a sign and a distance.
fn is_zone(text: &[u8]) -> bool
    ensures { result ≡ is_zone text.now }
{
    match text.split_first() {
        Some((sign, offset)) => {
            (*sign == b'Z' && offset.is_empty())
                || ((*sign == b'+' || *sign == b'-') && is_offset(offset))
        }
        None => false,
    }
}

// Whether it is at most a point and one to nine digits, and then a zone.
fn is_fraction_and_zone(text: &[u8]) -> bool
    ensures { result ≡ is_fraction_and_zone text.now }
{
    if !text.starts_with(b".") {
        return is_zone(text);
    }
    let (_, fraction) = text.split_at(1);
    is_digits_and_zone(fraction)
}

// Whether it is one to nine digits, and then a zone.
fn is_digits_and_zone(text: &[u8]) -> bool
    ensures { result ≡ (nat_le 1 (leading_digits text.now) && nat_le (leading_digits text.now) 9
        && is_zone (drop (leading_digits text.now) text.now)) }
{
    let count = count_digits(text);
    let (_, zone) = text.split_at(count);
    1 <= count && count <= 9 && is_zone(zone)
}
