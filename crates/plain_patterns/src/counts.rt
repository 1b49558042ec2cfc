//! How often something is repeated.
ghost use Rattle.std.specs.Prelude.{◌≡◌, ◌++◌, ◌≤◌, ◌<◌, ◌^◌, length, not, position, IfSome, OnOk, encode_utf8, string_bytes};
ghost use Rattle.std.specs.Char.{is_ascii_digit};
ghost use Rattle.std.specs.List.{flat_map};
ghost use Rattle.plain_patterns.specs.Plain.{are_in_order, counts_len as len_of_counts, digit_count as count_of_digits, is_count, is_most, most_len as len_of_most, number as number_of};

use crate::class::begins;
use std::alloc::AllocError;

/// How many decimal digits the text begins with.
#[tactic(auto, using(crate::proofs::Digits::position_else_length))]
fn digit_count(text: &[char]) -> usize
    ensures value { result ≡ count_of_digits text.now }
    ensures within { result ≤ length text.now }
{
    first_other(text).unwrap_or(text.len())
}

fn first_other(text: &[char]) -> Option<usize>
    ensures { result ≡ position (λ c. not (is_ascii_digit c)) text.now }
{
    text.iter()
        .position(|character| !character.is_ascii_digit())
}

/// The number that digits write, to 2^32.
fn number(digits: &[char]) -> u64
    ensures { result ≡ number_of digits.now }
{
    let mut number = 0;
    for digit in digits {
        number = (number * 10 + (*digit as u64).saturating_sub(48)).min(4_294_967_296);
    }
    number
}

/// How long the second count and the brace behind it are.
fn most_len(text: &[char]) -> Option<usize>
    ensures value { result ≡ len_of_most text.now }
    ensures within { IfSome result (λ n. n ≤ length text.now) }
{
    let count = digit_count(text);
    if begins(&text[count..], '}') {
        Some(count + 1)
    } else {
        None
    }
}

/// How long the counts behind a brace are, with the brace that closes them.
pub fn counts_len(text: &[char]) -> Option<usize>
    ensures value { result ≡ len_of_counts text.now }
    ensures within { IfSome result (λ n. n ≤ length text.now) }
{
    let count = digit_count(text);
    if count == 0 {
        return None;
    }
    let after = &text[count..];
    if begins(after, '}') {
        return Some(count + 1);
    }
    if !begins(after, ',') {
        return None;
    }
    let rest = most_len(&text[count + 1..])?;
    Some(count + 1 + rest)
}

/// Whether the number is a count: it is less than 2^32.
fn is_count(digits: &[char]) -> bool
    ensures { result ≡ is_count digits.now }
{
    number(digits) <= 4_294_967_295
}

/// Whether no second number stands here, or a count that isn't less.
fn is_most(least: &[char], text: &[char]) -> bool
    ensures { result ≡ is_most least.now text.now }
{
    let count = digit_count(text);
    count == 0 || (is_count(&text[..count]) && number(least) <= number(&text[..count]))
}

/// Whether what stands behind a brace are counts in order.
pub fn are_in_order(text: &[char]) -> bool
    ensures { result ≡ are_in_order text.now }
{
    let count = digit_count(text);
    let (least, after) = text.split_at(count);
    if !is_count(least) {
        return false;
    }
    if !begins(after, ',') {
        return true;
    }
    is_most(least, &text[count + 1..])
}

/// Writes characters as they stand.
pub fn write_all(out: &mut String, text: &[char]) -> Result<(), AllocError>
    ensures { OnOk result (string_bytes out.new ≡ string_bytes out.old ++ flat_map encode_utf8 text.now) }
{
    for character in text {
        out.push(*character)?;
    }
    Ok(())
}
