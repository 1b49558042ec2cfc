//! The pieces of a pattern.
ghost use Rattle.std.specs.Prelude.{◌≡◌, ◌++◌, ◌≤◌, length, IfOk, IfSome, OnOk, option_map, string_bytes};
ghost use Rattle.plain_patterns.specs.Plain.{Found, after_lazy, behind, boundary as boundary_of, braces_by, counts_len as len_of_counts, escaped_by, lazy_sign, longer_piece, opening, piece, sign as sign_of};

use crate::atom::{Set, write_atom, write_character, write_set};
use crate::class::{begins, write_class};
use crate::counts::{are_in_order, counts_len, write_all};
use crate::escape::escape;
use crate::state::Kind;
use std::alloc::AllocError;

/// The kind of a character that is a piece alone.
fn sign(character: char) -> Option<Kind>
    ensures { result ≡ sign_of character }
{
    match character {
        ')' => Some(Kind::Closing),
        '|' => Some(Kind::Bar),
        '^' | '$' => Some(Kind::Assertion),
        _ => None,
    }
}

/// Writes the piece that begins with a parenthesis.
fn write_opening<'a>(
    out: &mut String,
    text: &'a [char],
) -> Result<Option<(Kind, &'a [char])>, AllocError>
    ensures value { IfOk result (λ o. option_map {U = Found} (λ p. (p.0, string_bytes out.new, p.1.now)) o ≡ behind (string_bytes out.old) (opening text.now)) }
    ensures shorter { IfOk result (λ o. IfSome o (λ p. length p.1.now ≤ length text.now)) }
{
    let Some((first, rest)) = text.split_first() else {
        out.push('(')?;
        return Ok(Some((Kind::Opening, text)));
    };
    if *first != '?' {
        out.push('(')?;
        return Ok(Some((Kind::Opening, text)));
    }
    if !begins(rest, ':') {
        return Ok(None);
    }
    out.push_str("(?:")?;
    Ok(Some((Kind::Opening, &rest[1..])))
}

/// Writes a `?` that stands behind a quantifier. What follows.
fn write_lazy<'a>(out: &mut String, text: &'a [char]) -> Result<&'a [char], AllocError>
    ensures written { OnOk result (string_bytes out.new ≡ string_bytes out.old ++ lazy_sign text.now) }
    ensures after { IfOk result (λ u. u.now ≡ after_lazy text.now) }
    ensures shorter { IfOk result (λ u. length u.now ≤ length text.now) }
{
    if begins(text, '?') {
        out.push('?')?;
        return Ok(&text[1..]);
    }
    Ok(text)
}

/// Writes the piece that begins with a brace, where the counts behind it are so long.
fn write_braces<'a>(
    out: &mut String,
    unicode: bool,
    len: Option<usize>,
    text: &'a [char],
) -> Result<Option<(Kind, &'a [char])>, AllocError>
    requires { IfSome len (λ n. n ≤ length text.now) }
    ensures value { IfOk result (λ o. option_map {U = Found} (λ p. (p.0, string_bytes out.new, p.1.now)) o ≡ behind (string_bytes out.old) (braces_by unicode len text.now)) }
    ensures shorter { IfOk result (λ o. IfSome o (λ p. length p.1.now ≤ length text.now)) }
{
    let Some(count) = len else {
        if unicode {
            return Ok(None);
        }
        write_character(out, '{')?;
        return Ok(Some((Kind::Item, text)));
    };
    if !are_in_order(text) {
        return Ok(None);
    }
    let (counts, after) = text.split_at(count);
    out.push('{')?;
    write_all(out, counts)?;
    let rest = write_lazy(out, after)?;
    Ok(Some((Kind::Repetition, rest)))
}

/// How an assertion behind a backslash is written.
fn boundary(text: &[char]) -> Option<&'static str>
    ensures value { option_map (λ s. s.now) result ≡ boundary_of text.now }
    ensures within { IfSome result (λ _. 1 ≤ length text.now) }
{
    let Some((first, _)) = text.split_first() else {
        return None;
    };
    match *first {
        'b' => Some(r"(?-u:\b)"),
        'B' => Some(r"(?-u:\B)"),
        _ => None,
    }
}

/// Writes the piece that begins with a backslash.
fn write_escaped<'a>(
    out: &mut String,
    unicode: bool,
    text: &'a [char],
) -> Result<Option<(Kind, &'a [char])>, AllocError>
    ensures value { IfOk result (λ o. option_map {U = Found} (λ p. (p.0, string_bytes out.new, p.1.now)) o ≡ behind (string_bytes out.old) (escaped_by unicode (boundary_of text.now) text.now)) }
    ensures shorter { IfOk result (λ o. IfSome o (λ p. length p.1.now ≤ length text.now)) }
{
    if let Some(written) = boundary(text) {
        out.push_str(written)?;
        return Ok(Some((Kind::Assertion, &text[1..])));
    }
    let Some((found, after)) = escape(unicode, text) else {
        return Ok(None);
    };
    write_atom(out, found)?;
    Ok(Some((Kind::Item, after)))
}

fn write_longer<'a>(
    out: &mut String,
    unicode: bool,
    first: char,
    rest: &'a [char],
) -> Result<Option<(Kind, &'a [char])>, AllocError>
    ensures value { IfOk result (λ o. option_map {U = Found} (λ p. (p.0, string_bytes out.new, p.1.now)) o ≡ behind (string_bytes out.old) (longer_piece unicode first rest.now)) }
    ensures shorter { IfOk result (λ o. IfSome o (λ p. length p.1.now ≤ length rest.now)) }
{
    match first {
        '(' => write_opening(out, rest),
        '[' => match write_class(out, unicode, rest)? {
            Some(after) => Ok(Some((Kind::Item, after))),
            None => Ok(None),
        },
        '{' => write_braces(out, unicode, counts_len(rest), rest),
        '\\' => write_escaped(out, unicode, rest),
        '*' | '+' | '?' => {
            out.push(first)?;
            let after = write_lazy(out, rest)?;
            Ok(Some((Kind::Repetition, after)))
        }
        '.' => {
            write_set(out, Set::Dot)?;
            Ok(Some((Kind::Item, rest)))
        }
        ']' | '}' if unicode => Ok(None),
        _ => {
            write_character(out, first)?;
            Ok(Some((Kind::Item, rest)))
        }
    }
}

#[tactic(auto, unfolding(crate::specs::Plain::piece))]
/// Writes the piece that begins with this character. Its kind and what follows, or nothing where none stands here.
pub fn write_piece<'a>(
    out: &mut String,
    unicode: bool,
    first: char,
    rest: &'a [char],
) -> Result<Option<(Kind, &'a [char])>, AllocError>
    ensures value { IfOk result (λ o. option_map {U = Found} (λ p. (p.0, string_bytes out.new, p.1.now)) o ≡ behind (string_bytes out.old) (piece unicode first rest.now)) }
    ensures shorter { IfOk result (λ o. IfSome o (λ p. length p.1.now ≤ length rest.now)) }
{
    if let Some(kind) = sign(first) {
        out.push(first)?;
        return Ok(Some((kind, rest)));
    }
    let found = write_longer(out, unicode, first, rest)?;
    Ok(found)
}
