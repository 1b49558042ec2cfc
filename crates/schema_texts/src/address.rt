//! The formats `ipv4` and `ipv6` (RFC 4291, 2.2).
ghost use Rattle.std.specs.Prelude.{◌≡◌, ◌≤◌, true, false, length, option_map, IfSome, IsTrue};
ghost use Rattle.schema_defs.specs.Formats.{are_eight, around_double, groups_after, groups_before, is_group, is_ipv4, is_ipv6, is_octet, leave_room, pieces};
ghost use Rattle.schema_texts.specs.Groups.{groups_in};

use crate::pieces::{are_hex, cut, has_more, is_number_to};

/// Whether the text is four numbers to 255, without leading zeros, between points.
#[tactic(auto, unfolding(schema_defs::specs::Formats::is_ipv4))]
pub(crate) fn is_ipv4(text: &[u8]) -> bool
    ensures { result ≡ is_ipv4 text.now }
{
    let Some((first, after_first)) = cut(text, b'.') else {
        return false;
    };
    let Some((second, after_second)) = cut(after_first, b'.') else {
        return false;
    };
    let Some((third, fourth)) = cut(after_second, b'.') else {
        return false;
    };
    if has_more(fourth, b'.') {
        return false;
    }
    is_octet(first) && is_octet(second) && is_octet(third) && is_octet(fourth)
}

// Whether it is a number to 255 without a leading zero.
fn is_octet(text: &[u8]) -> bool
    ensures { result ≡ is_octet text.now }
{
    is_number_to(text, 1, 9)
        || ((is_number_to(text, 2, 99) || is_number_to(text, 3, 255)) && !text.starts_with(b"0"))
}

/// Whether the text is eight groups of one to four digits of sixteen between colons, with at most one `::` for one or
/// more groups, where the last two groups may be an ipv4 text.
#[tactic(auto, using(crate::proofs::Addresses::same_count), unfolding(schema_defs::specs::Formats::is_ipv6))]
pub(crate) fn is_ipv6(text: &[u8]) -> bool
    ensures { result ≡ is_ipv6 text.now }
{
    match around_double(text) {
        Some((before, after)) => leave_room(groups_before(before), groups_after(after)),
        None => are_eight(count_groups(text, true)),
    }
}

// The text before the first `::`, and the text after it.
fn around_double(text: &[u8]) -> Option<(&[u8], &[u8])>
    ensures { around_double text.now ≡ option_map (λ p. (p.0.now, p.1.now)) result }
{
    for place in 0..text.len() {
        let (before, rest) = text.split_at(place);
        if rest.starts_with(b"::") {
            let (_, after) = rest.split_at(2);
            return Some((before, after));
        }
    }
    None
}

// Whether so many groups leave room for one of the eight.
fn leave_room(before: Option<usize>, after: Option<usize>) -> bool
    ensures { result ≡ leave_room before after }
{
    let Some(first) = before else {
        return false;
    };
    match after {
        Some(second) => first <= 7 && second <= 7 - first,
        None => false,
    }
}

// Whether it is eight groups.
fn are_eight(count: Option<usize>) -> bool
    ensures { result ≡ are_eight count }
{
    match count {
        Some(groups) => groups == 8,
        None => false,
    }
}

// How many groups the text before `::` makes.
#[tactic(auto, using(crate::proofs::Addresses::count_before))]
fn groups_before(text: &[u8]) -> Option<usize>
    ensures { result ≡ groups_before text.now }
{
    if text.is_empty() {
        return Some(0);
    }
    count_groups(text, false)
}

// How many groups the text after `::` makes.
#[tactic(auto, using(crate::proofs::Addresses::count_after))]
fn groups_after(text: &[u8]) -> Option<usize>
    ensures { result ≡ groups_after text.now }
{
    if text.is_empty() {
        return Some(0);
    }
    count_groups(text, true)
}

// How many groups the pieces between colons make. An ipv4 text, where it is allowed as the last, makes two.
fn count_groups(text: &[u8], ipv4_allowed: bool) -> Option<usize>
    ensures { result ≡ groups_in ipv4_allowed (pieces 58 text.now) }
{
    let mut count = 0;
    let mut rest = text;
    while let Some((group, others)) = cut(rest, b':') {
        if !is_group(group) {
            return None;
        }
        count += 1;
        rest = others;
    }
    if is_group(rest) {
        Some(count + 1)
    } else if ipv4_allowed && is_ipv4(rest) {
        Some(count + 2)
    } else {
        None
    }
}

// Whether it is one to four digits of sixteen.
fn is_group(text: &[u8]) -> bool
    ensures group { result ≡ is_group text.now }
    ensures some { IsTrue result → 1 ≤ length text.now }
{
    1 <= text.len() && text.len() <= 4 && are_hex(text)
}
