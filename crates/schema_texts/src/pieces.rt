//! Parts of a text: pieces between separators, digits, and the numbers that digits write.
ghost use Rattle.std.specs.Prelude.{◌≡◌, ◌+◌, ◌-◌, ◌^◌, ◌<◌, ◌≤◌, ◌==◌, ◌∷◌, [], length, IfNone, IfSome, IsTrue, false, Some, None, not, if◌then◌else◌};
ghost use Rattle.std.specs.List.{list_all, position};
ghost use Rattle.std.specs.Char.{is_ascii_digit, is_ascii_hexdigit};
ghost use Rattle.schema_texts.specs.Several.{HasSeveral};
ghost use Rattle.schema_defs.specs.Formats.{pieces, all_digits, digits_to, leading_digits, number_of};

/// The text before the first separator, and the text after it, where there is one.
pub(crate) fn cut(text: &[u8], separator: u8) -> Option<(&[u8], &[u8])>
    ensures whole { IfNone result (pieces separator text.now ≡ text.now ∷ []) }
    ensures parts { IfSome result (λ p. pieces separator text.now ≡ p.0.now ∷ pieces separator p.1.now) }
    ensures shorter { IfSome result (λ p. length p.0.now + length p.1.now + 1 ≡ length text.now) }
{
    let place = first_place(text, separator)?;
    let (before, rest) = text.split_at(place);
    let (_, after) = rest.split_at(1);
    Some((before, after))
}

/// Whether the separator stands in the text.
pub(crate) fn has_more(text: &[u8], separator: u8) -> bool
    ensures several { IsTrue result → HasSeveral (pieces separator text.now) }
    ensures alone { result ≡ false → pieces separator text.now ≡ text.now ∷ [] }
{
    cut(text, separator).is_some()
}

// The place of the first such byte.
fn first_place(text: &[u8], byte: u8) -> Option<usize>
    ensures place { result ≡ position (λ b. b == byte) text.now }
    ensures within { IfSome result (λ i. i < length text.now) }
{
    text.iter().position(|b| *b == byte)
}

/// Whether each byte is a digit of sixteen.
pub(crate) fn are_hex(text: &[u8]) -> bool
    ensures { result ≡ list_all is_ascii_hexdigit text.now }
{
    text.iter().all(|b| b.is_ascii_hexdigit())
}

// Whether each byte is a decimal digit.
fn are_digits(text: &[u8]) -> bool
    ensures { result ≡ list_all is_ascii_digit text.now }
{
    text.iter().all(|b| b.is_ascii_digit())
}

/// The number that the text writes, where it is that many decimal digits, of which there are at most four.
pub(crate) fn number(text: &[u8], count: usize) -> Option<u16>
    requires { count ≤ 4 }
    ensures value { result ≡ (if all_digits count text.now then Some (number_of text.now) else None) }
    ensures small { IfSome result (λ n. n < 10 ^ count) }
{
    if text.len() != count {
        return None;
    }
    if !are_digits(text) {
        return None;
    }
    let mut value = 0u16;
    for digit in text {
        value = value * 10 + u16::from(*digit - b'0');
    }
    Some(value)
}

/// Whether the text is that many decimal digits, at most four, whose number is at most `most`.
pub(crate) fn is_number_to(text: &[u8], count: usize, most: u16) -> bool
    requires { count ≤ 4 }
    ensures { result ≡ digits_to count most text.now }
{
    match number(text, count) {
        Some(value) => value <= most,
        None => false,
    }
}

/// How many decimal digits the text begins with.
pub(crate) fn count_digits(text: &[u8]) -> usize
    ensures count { result ≡ leading_digits text.now }
    ensures within { result ≤ length text.now }
{
    match first_other(text) {
        Some(place) => place,
        None => text.len(),
    }
}

// The place of the first byte that is no decimal digit.
fn first_other(text: &[u8]) -> Option<usize>
    ensures place { result ≡ position (λ b. not (is_ascii_digit b)) text.now }
    ensures within { IfSome result (λ i. i < length text.now) }
{
    text.iter().position(|b| !b.is_ascii_digit())
}
