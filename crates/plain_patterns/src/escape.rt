//! What a backslash stands before.
ghost use Rattle.std.specs.Prelude.{◌≡◌, ◌+◌, ◌≤◌, ◌<◌, codes, length, true, IfSome, option_map};
ghost use Rattle.std.specs.Char.{digit_value};
ghost use Rattle.plain_patterns.specs.Plain.{Read, after_u, character as character_of, braced_after, braced_code as braced_code_of, code_point as code_point_of, code_unit as code_unit_of, control as control_of, escape as escaped, hex_pair as hex_pair_of, is_identity, is_lead, is_one_of, is_trail, letter as letter_of, longer_escape, next_code as next_code_of, null as null_of, pair_code as pair_code_of, plain_code as plain_code_of, trail_after};

use crate::atom::{Atom, Set};
use crate::class::begins;
use crate::property::property;

/// What a letter stands for that needs nothing behind it.
fn letter(character: char) -> Option<Atom>
    ensures { result ≡ letter_of character }
{
    match character {
        'd' => Some(Atom::Named(Set::Digit)),
        'D' => Some(Atom::Named(Set::NoDigit)),
        's' => Some(Atom::Named(Set::Space)),
        'S' => Some(Atom::Named(Set::NoSpace)),
        'w' => Some(Atom::Named(Set::Word)),
        'W' => Some(Atom::Named(Set::NoWord)),
        't' => Some(Atom::Character('\t')),
        'n' => Some(Atom::Character('\n')),
        'v' => Some(Atom::Character('\x0B')),
        'f' => Some(Atom::Character('\x0C')),
        'r' => Some(Atom::Character('\r')),
        _ => None,
    }
}

/// The character of a code.
fn character(code: u32) -> Option<Atom>
    ensures { result ≡ character_of code }
{
    match char::from_u32(code) {
        Some(character) => Some(Atom::Character(character)),
        None => None,
    }
}

fn coded(code: u32, rest: &[char]) -> Option<(Atom, &[char])>
    ensures value { option_map {U = Read} (λ p. (p.0, p.1.now)) result ≡ option_map {U = Read} (λ a. (a, rest.now)) (character_of code) }
    ensures shorter { IfSome result (λ p. length p.1.now ≤ length rest.now) }
{
    let atom = character(code)?;
    Some((atom, rest))
}

/// The null character, where no digit follows.
fn null(text: &[char]) -> Option<(Atom, &[char])>
    ensures value { option_map (λ p. (p.0, p.1.now)) result ≡ null_of text.now }
    ensures shorter { IfSome result (λ p. length p.1.now ≤ length text.now) }
{
    match text.split_first() {
        Some((first, _)) if first.is_ascii_digit() => None,
        _ => Some((Atom::Character('\0'), text)),
    }
}

/// The code of a control letter.
fn control(text: &[char]) -> Option<(u32, &[char])>
    ensures value { option_map (λ p. (p.0, p.1.now)) result ≡ control_of text.now }
    ensures shorter { IfSome result (λ p. length p.1.now ≤ length text.now) }
{
    let Some((first, rest)) = text.split_first() else {
        return None;
    };
    if first.is_ascii_alphabetic() {
        Some((*first as u32 % 32, rest))
    } else {
        None
    }
}

// The value of a digit or a letter, and 36 for any other character.
fn digit_value(character: char) -> u32
    ensures value { result ≡ digit_value character }
    ensures bound { result ≤ 36 }
{
    character.to_digit(36).unwrap_or(36)
}

/// The number that two digits of sixteen write.
fn hex_pair(text: &[char]) -> Option<(u32, &[char])>
    ensures value { option_map (λ p. (p.0, p.1.now)) result ≡ hex_pair_of text.now }
    ensures bound { IfSome result (λ p. p.0 ≤ 612) }
    ensures shorter { IfSome result (λ p. length p.1.now ≤ length text.now) }
{
    match text {
        [high, low, rest @ ..] if high.is_digit(16) & low.is_digit(16) => {
            Some((16 * digit_value(*high) + digit_value(*low), rest))
        }
        _ => None,
    }
}

/// The number that four digits of sixteen write.
fn code_unit(text: &[char]) -> Option<(u32, &[char])>
    ensures value { option_map (λ p. (p.0, p.1.now)) result ≡ code_unit_of text.now }
    ensures shorter { IfSome result (λ p. length p.1.now ≤ length text.now) }
{
    let (high, after) = hex_pair(text)?;
    let (low, rest) = hex_pair(after)?;
    Some((256 * high + low, rest))
}

fn is_lead(unit: u32) -> bool
    ensures { result ≡ is_lead unit }
{
    0xD800 <= unit && unit <= 0xDBFF
}

fn is_trail(unit: u32) -> bool
    ensures { result ≡ is_trail unit }
{
    0xDC00 <= unit && unit <= 0xDFFF
}

/// What follows a backslash and `u`.
fn after_u(text: &[char]) -> Option<&[char]>
    ensures value { option_map (λ u. u.now) result ≡ after_u text.now }
    ensures shorter { IfSome result (λ u. length u.now ≤ length text.now) }
{
    match text {
        [first, second, rest @ ..] if (*first == '\\') & (*second == 'u') => Some(rest),
        _ => None,
    }
}

/// The code point of a surrogate pair.
fn pair_code(lead: u32, trail: u32, rest: &[char]) -> Option<(u32, &[char])>
    requires { is_lead lead ≡ true }
    ensures value { option_map (λ p. (p.0, p.1.now)) result ≡ pair_code_of lead (trail, rest.now) }
    ensures shorter { IfSome result (λ p. length p.1.now ≤ length rest.now) }
{
    if is_trail(trail) {
        Some((0x10000 + (lead - 0xD800) * 0x400 + (trail - 0xDC00), rest))
    } else {
        None
    }
}

fn trail_after(lead: u32, text: &[char]) -> Option<(u32, &[char])>
    requires { is_lead lead ≡ true }
    ensures value { option_map (λ p. (p.0, p.1.now)) result ≡ trail_after lead text.now }
    ensures shorter { IfSome result (λ p. length p.1.now ≤ length text.now) }
{
    let after = after_u(text)?;
    let (trail, rest) = code_unit(after)?;
    pair_code(lead, trail, rest)
}

/// The code that four digits write, or that a surrogate pair does.
fn plain_code(text: &[char]) -> Option<(u32, &[char])>
    ensures value { option_map (λ p. (p.0, p.1.now)) result ≡ plain_code_of text.now }
    ensures shorter { IfSome result (λ p. length p.1.now ≤ length text.now) }
{
    let (unit, rest) = code_unit(text)?;
    if is_lead(unit) {
        return trail_after(unit, rest);
    }
    Some((unit, rest))
}

/// The code behind one digit more, to 10FFFF.
fn next_code(code: u32, digit: char) -> Option<u32>
    requires { code ≤ 1114111 }
    ensures value { result ≡ next_code_of code digit }
    ensures bound { IfSome result (λ n. n ≤ 1114111) }
{
    let next = code * 16 + digit_value(digit);
    if digit.is_digit(16) && next <= 0x10FFFF {
        Some(next)
    } else {
        None
    }
}

/// The code that digits up to a brace write.
fn braced_after(text: &[char]) -> Option<(u32, &[char])>
    ensures value { option_map (λ p. (p.0, p.1.now)) result ≡ braced_after 0 text.now }
    ensures shorter { IfSome result (λ p. length p.1.now ≤ length text.now) }
{
    let mut code = 0;
    for (i, digit) in text.iter().enumerate() {
        if *digit == '}' {
            return Some((code, &text[i + 1..]));
        }
        let Some(next) = next_code(code, *digit) else {
            return None;
        };
        code = next;
    }
    None
}

fn braced_code(text: &[char]) -> Option<(u32, &[char])>
    ensures value { option_map (λ p. (p.0, p.1.now)) result ≡ braced_code_of text.now }
    ensures shorter { IfSome result (λ p. length p.1.now ≤ length text.now) }
{
    if begins(text, '}') {
        return None;
    }
    braced_after(text)
}

/// The code behind `u`, in braces in unicode mode alone.
fn code_point(unicode: bool, text: &[char]) -> Option<(u32, &[char])>
    ensures value { option_map (λ p. (p.0, p.1.now)) result ≡ code_point_of unicode text.now }
    ensures shorter { IfSome result (λ p. length p.1.now ≤ length text.now) }
{
    if unicode && begins(text, '{') {
        return braced_code(&text[1..]);
    }
    plain_code(text)
}

/// What a letter or a digit stands for with what follows it.
fn longer_escape(unicode: bool, first: char, rest: &[char]) -> Option<(Atom, &[char])>
    ensures value { option_map (λ p. (p.0, p.1.now)) result ≡ longer_escape unicode first rest.now }
    ensures shorter { IfSome result (λ p. length p.1.now ≤ length rest.now) }
{
    if first == '0' {
        return null(rest);
    }
    let (code, after) = if first == 'c' {
        control(rest)?
    } else if first == 'x' {
        hex_pair(rest)?
    } else if first == 'u' {
        code_point(unicode, rest)?
    } else if unicode && first == 'p' {
        return property(false, rest);
    } else if unicode && first == 'P' {
        return property(true, rest);
    } else {
        return None;
    };
    coded(code, after)
}

/// Whether a character stands for itself behind a backslash.
fn is_identity(unicode: bool, character: char) -> bool
    ensures { result ≡ is_identity unicode character }
{
    if unicode {
        return is_syntax(character);
    }
    !character.is_ascii_alphanumeric()
}

fn is_syntax(character: char) -> bool
    ensures { result ≡ is_one_of (codes "^$\\.*+?()[]{}|/") character }
{
    match character {
        '^' | '$' | '\\' | '.' | '*' | '+' | '?' | '(' | ')' | '[' | ']' | '{' | '}' | '|' | '/' =>
            true,
        _ => false,
    }
}

/// What stands escaped behind a backslash, and what follows.
pub fn escape(unicode: bool, text: &[char]) -> Option<(Atom, &[char])>
    ensures value { option_map (λ p. (p.0, p.1.now)) result ≡ escaped unicode text.now }
    ensures shorter { IfSome result (λ p. length p.1.now + 1 ≤ length text.now) }
{
    let Some((first, rest)) = text.split_first() else {
        return None;
    };
    if is_identity(unicode, *first) {
        return Some((Atom::Character(*first), rest));
    }
    match letter(*first) {
        Some(atom) => Some((atom, rest)),
        None => longer_escape(unicode, *first, rest),
    }
}
