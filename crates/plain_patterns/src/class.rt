//! Classes.
ghost use Rattle.std.specs.Prelude.{◌≡◌, ◌+◌, ◌≤◌, length, IfOk, IfSome, if◌then◌else◌, option_map, string_bytes, None, Some};
ghost use Rattle.plain_patterns.specs.Plain.{after_head, class as class_of, class_after, class_atom as atom_of, class_escape as escaped, is_at, is_range as ranges, joined as joined_of, member as member_of, members_of};
ghost use Rattle.plain_patterns.specs.declared.atom.Member.TheVariants.{Beside};

use crate::atom::{Atom, Member, write_member};
use crate::escape::escape;
use std::alloc::AllocError;

/// Whether the text begins with the character.
pub fn begins(text: &[char], character: char) -> bool
    ensures { result ≡ is_at character text.now }
{
    match text.split_first() {
        Some((first, _)) => *first == character,
        None => false,
    }
}

fn class_escape(unicode: bool, text: &[char]) -> Option<(Atom, &[char])>
    ensures value { option_map (λ p. (p.0, p.1.now)) result ≡ escaped unicode text.now }
    ensures shorter { IfSome result (λ p. length p.1.now + 1 ≤ length text.now) }
{
    if begins(text, 'b') {
        return Some((Atom::Character('\x08'), &text[1..]));
    }
    if begins(text, '-') {
        return Some((Atom::Character('-'), &text[1..]));
    }
    escape(unicode, text)
}

fn class_atom(unicode: bool, text: &[char]) -> Option<(Atom, &[char])>
    ensures value { option_map (λ p. (p.0, p.1.now)) result ≡ atom_of unicode text.now }
    ensures shorter { IfSome result (λ p. length p.1.now + 1 ≤ length text.now) }
{
    let Some((first, rest)) = text.split_first() else {
        return None;
    };
    if *first == '\\' {
        class_escape(unicode, rest)
    } else {
        Some((Atom::Character(*first), rest))
    }
}

/// Whether a hyphen stands here that joins two atoms.
fn is_range(text: &[char]) -> bool
    ensures { result ≡ ranges text.now }
{
    match text.split_first() {
        Some((first, rest)) => *first == '-' && !begins(rest, ']'),
        None => false,
    }
}

fn joined(unicode: bool, low: Atom, high: Atom) -> Option<Member>
    ensures { result ≡ joined_of unicode low high }
{
    match low {
        Atom::Character(first) => match high {
            Atom::Character(last) if first <= last => Some(Member::Range(first, last)),
            Atom::Character(_) => None,
            Atom::Named(set) => beside(unicode, Atom::Character(first), Atom::Named(set)),
        },
        Atom::Named(set) => beside(unicode, Atom::Named(set), high),
    }
}

fn beside(unicode: bool, low: Atom, high: Atom) -> Option<Member>
    ensures { result ≡ (if unicode then None else Some (Beside low high)) }
{
    if unicode {
        None
    } else {
        Some(Member::Beside(low, high))
    }
}

/// The member of a class that stands here, and what follows.
fn member(unicode: bool, text: &[char]) -> Option<(Member, &[char])>
    ensures value { option_map (λ p. (p.0, p.1.now)) result ≡ member_of unicode text.now }
    ensures shorter { IfSome result (λ p. length p.1.now + 1 ≤ length text.now) }
{
    let (low, after) = class_atom(unicode, text)?;
    if !is_range(after) {
        return Some((Member::Single(low), after));
    }
    let (high, rest) = class_atom(unicode, &after[1..])?;
    let member = joined(unicode, low, high)?;
    Some((member, rest))
}

/// Writes the members of a class, and the bracket that closes it. What follows, or nothing.
fn write_members<'a>(
    out: &mut String,
    unicode: bool,
    text: &'a [char],
) -> Result<Option<&'a [char]>, AllocError>
    ensures value { IfOk result (λ o. option_map (λ u. (string_bytes out.new, u.now)) o ≡ after_head (string_bytes out.old) (members_of unicode text.now)) }
    ensures shorter { IfOk result (λ o. IfSome o (λ u. length u.now ≤ length text.now)) }
{
    let mut left = text;
    while let Some((first, rest)) = left.split_first() {
        if *first == ']' {
            out.push(']')?;
            return Ok(Some(rest));
        }
        let Some((found, after)) = member(unicode, left) else {
            return Ok(None);
        };
        write_member(out, found)?;
        left = after;
    }
    Ok(None)
}

/// Writes a class behind its head, or the other one where no member stands here.
fn write_class_after<'a>(
    out: &mut String,
    unicode: bool,
    head: &str,
    other: &str,
    text: &'a [char],
) -> Result<Option<&'a [char]>, AllocError>
    ensures value { IfOk result (λ o. option_map (λ u. (string_bytes out.new, u.now)) o ≡ after_head (string_bytes out.old) (class_after unicode head.now other.now text.now)) }
    ensures shorter { IfOk result (λ o. IfSome o (λ u. length u.now ≤ length text.now)) }
{
    if begins(text, ']') {
        out.push_str(other)?;
        return Ok(Some(&text[1..]));
    }
    out.push_str(head)?;
    let after = write_members(out, unicode, text)?;
    Ok(after)
}

/// Writes the class behind an opening bracket. What follows, or nothing where none stands here.
pub fn write_class<'a>(
    out: &mut String,
    unicode: bool,
    text: &'a [char],
) -> Result<Option<&'a [char]>, AllocError>
    ensures value { IfOk result (λ o. option_map (λ u. (string_bytes out.new, u.now)) o ≡ after_head (string_bytes out.old) (class_of unicode text.now)) }
    ensures shorter { IfOk result (λ o. IfSome o (λ u. length u.now ≤ length text.now)) }
{
    if begins(text, '^') {
        let after = write_class_after(out, unicode, "[^", r"[\x{0}-\x{10FFFF}]", &text[1..])?;
        return Ok(after);
    }
    let after = write_class_after(out, unicode, "[", r"[^\x{0}-\x{10FFFF}]", text)?;
    Ok(after)
}
