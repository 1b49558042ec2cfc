//! The escapes of string literals.
ghost use Rattle.std.specs.Prelude.{◌≡◌, ◌≤◌, ◌<◌, ◌+◌, length, IfSome, IsTrue, Some, None};
ghost use Rattle.std.specs.Char.{digit_value};
ghost use Rattle.rust_tokens.specs.Front.{hex_len, hex_value, begins_with, byte_escape, braced_escape, unicode_escape, escape, unit};

// The value of a digit or a letter, and 36 for any other character.
fn digit_value(ch: char) -> u32
    ensures value { result ≡ digit_value ch }
    ensures bound { result ≤ 36 }
{
    ch.to_digit(36).unwrap_or(36)
}

// How many hexadecimal digits stand at the front.
fn hex_len(chars: &[char]) -> usize
    ensures value { result ≡ hex_len chars.now }
    ensures within { result ≤ length chars.now }
{
    for (i, ch) in chars.iter().enumerate() {
        if !ch.is_digit(16) {
            return i;
        }
    }
    chars.len()
}

// The number that at most six digits write.
fn hex_value(digits: &[char]) -> u32
    requires { length digits.now ≤ 6 }
    ensures { result ≡ hex_value 0 digits.now }
{
    let mut value = 0;
    for digit in digits {
        value = 16 * value + digit_value(*digit);
    }
    value
}

// Whether that character stands at the front.
fn begins_with(ch: char, chars: &[char]) -> bool
    ensures value { result ≡ begins_with ch chars.now }
    ensures some { IsTrue result → 0 < length chars.now }
{
    match chars {
        [first, ..] => *first == ch,
        [] => false,
    }
}

// Two hexadecimal digits below 80, after `x`.
fn byte_escape(chars: &[char]) -> Option<(char, usize)>
    ensures value { result ≡ byte_escape chars.now }
    ensures within { IfSome result (λ found. found.1 ≤ length chars.now + 1) }
{
    match chars {
        [high, low, ..] if high.is_digit(8) & low.is_digit(16) => {
            match char::from_u32(16 * digit_value(*high) + digit_value(*low)) {
                Some(ch) => Some((ch, 3)),
                None => None,
            }
        }
        _ => None,
    }
}

// One to six hexadecimal digits of a character and a brace, after `u{`.
fn braced_escape(chars: &[char]) -> Option<(char, usize)>
    ensures value { result ≡ braced_escape chars.now }
    ensures within { IfSome result (λ found. found.1 ≤ length chars.now + 2) }
{
    let n = hex_len(chars);
    if n < 1 || n > 6 || !begins_with('}', &chars[n..]) {
        return None;
    }
    match char::from_u32(hex_value(&chars[..n])) {
        Some(ch) => Some((ch, n + 3)),
        None => None,
    }
}

// A braced escape, after `u`.
fn unicode_escape(chars: &[char]) -> Option<(char, usize)>
    ensures value { result ≡ unicode_escape chars.now }
    ensures within { IfSome result (λ found. found.1 ≤ length chars.now + 1) }
{
    match chars {
        [first, rest @ ..] if *first == '{' => braced_escape(rest),
        _ => None,
    }
}

// The character of an escape, and how many characters it takes after the backslash.
fn escape(chars: &[char]) -> Option<(char, usize)>
    ensures value { result ≡ escape chars.now }
    ensures within { IfSome result (λ found. found.1 ≤ length chars.now) }
{
    match chars {
        [first, rest @ ..] => match *first {
            'n' => Some(('\n', 1)),
            'r' => Some(('\r', 1)),
            't' => Some(('\t', 1)),
            '\\' => Some(('\\', 1)),
            '0' => Some(('\0', 1)),
            '\'' => Some(('\'', 1)),
            '"' => Some(('"', 1)),
            'x' => byte_escape(rest),
            'u' => unicode_escape(rest),
            _ => None,
        },
        [] => None,
    }
}

/// The character that a string literal has at its front, and how many further characters it takes there.
pub(crate) fn unit(first: char, rest: &[char]) -> Option<(char, usize)>
    ensures value { result ≡ unit first rest.now }
    ensures within { IfSome result (λ found. found.1 ≤ length rest.now) }
{
    if first == '\\' {
        escape(rest)
    } else {
        Some((first, 0))
    }
}
