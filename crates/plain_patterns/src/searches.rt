//! What is searched for a plain pattern.
ghost use Rattle.std.specs.Prelude.{◌≡◌, ◌++◌, ◌+◌, ◌≤◌, ◌∷◌, [], List, Bool, ℕ, length, map, IfOk, IfSome, OnOk, None, Some, if◌then◌else◌, option_map, string_bytes};
ghost use Rattle.plain_patterns.specs.Plain.{after_head};
ghost use Rattle.plain_patterns.specs.Ends.{Front, Looks, front, inside as inside_of, joined, look_head, look_seen, look_tail, looks_of, rear, seen, with_ends};

use crate::look::{after, is_only, look};
use crate::scan::write_pieces;
use std::alloc::{AllocError, Global};

/// What stands in a lookahead or a lookbehind.
#[derive(Drop)]
pub struct Look {
    /// What `regex` is to search for: behind the start of the text, or before its end.
    pub source: String,
    /// Whether a text has the pattern only where nothing is found.
    pub negated: bool,
}

/// What `regex` is to search for where a pattern is plain. A text has the pattern exactly where `own` is found in it, and each
/// source of `beside` exactly where that isn't negated.
#[derive(Drop)]
pub struct Searches {
    /// The pattern without lookaheads and lookbehinds.
    pub own: String,
    /// What stands in these, in their order.
    pub beside: Vec<Look>,
}

fn write_head(out: &mut String, back: bool) -> Result<(), AllocError>
    ensures { OnOk result (string_bytes out.new ≡ string_bytes out.old ++ look_head back) }
{
    if back {
        out.push_str("(?:")?;
        return Ok(());
    }
    out.push_str("^(?:")?;
    Ok(())
}

fn write_tail(out: &mut String, back: bool) -> Result<(), AllocError>
    ensures { OnOk result (string_bytes out.new ≡ string_bytes out.old ++ look_tail back) }
{
    if back {
        out.push_str(")$")?;
        return Ok(());
    }
    out.push_str(")")?;
    Ok(())
}

// Writes what stands in a lookaround. What follows the parenthesis that closes it, or nothing where that isn't plain.
fn write_inside<'a>(
    out: &mut String,
    unicode: bool,
    back: bool,
    text: &'a [char],
) -> Result<Option<&'a [char]>, AllocError>
    ensures value { IfOk result (λ o. option_map (λ u. (string_bytes out.new, u.now)) o ≡ after_head (string_bytes out.old) (inside_of unicode back text.now)) }
    ensures shorter { IfOk result (λ o. IfSome o (λ u. length u.now ≤ length text.now)) }
{
    write_head(out, back)?;
    let Some(left) = write_pieces(out, unicode, true, text)? else {
        return Ok(None);
    };
    let Some(rest) = after(')', left) else {
        return Ok(None);
    };
    write_tail(out, back)?;
    Ok(Some(rest))
}

// Keeps what stands in a lookaround.
fn push_look<'a>(
    looks: &mut Vec<Look>,
    alloc: Global,
    unicode: bool,
    back: bool,
    negated: bool,
    text: &'a [char],
) -> Result<Option<&'a [char]>, AllocError>
    ensures value { IfOk result (λ o. option_map {U = Looks} (λ u. (map look_seen looks.new.items, u.now)) o ≡ option_map {U = Looks} (λ p. (map look_seen looks.old.items ++ (p.0, negated) ∷ [], p.1)) (inside_of unicode back text.now)) }
    ensures shorter { IfOk result (λ o. IfSome o (λ u. length u.now ≤ length text.now)) }
{
    let mut source = String::new(alloc);
    let Some(rest) = write_inside(&mut source, unicode, back, text)? else {
        return Ok(None);
    };
    looks.push(Look { source, negated })?;
    Ok(Some(rest))
}

// Keeps what stands in lookaheads, or in lookbehinds, one after another. What follows, or nothing where one isn't plain.
fn push_looks<'a>(
    looks: &mut Vec<Look>,
    alloc: Global,
    unicode: bool,
    back: bool,
    text: &'a [char],
) -> Result<Option<&'a [char]>, AllocError>
    ensures value { IfOk result (λ o. option_map {U = Looks} (λ u. (map look_seen looks.new.items, u.now)) o ≡ option_map {U = Looks} (λ q. (map look_seen looks.old.items ++ q.0, q.1)) (looks_of unicode back text.now)) }
    ensures shorter { IfOk result (λ o. IfSome o (λ u. length u.now ≤ length text.now)) }
{
    let mut left = text;
    while let Some((negated, inner)) = look(back, left) {
        let Some(rest) = push_look(looks, alloc, unicode, back, negated, inner)? else {
            return Ok(None);
        };
        left = rest;
    }
    Ok(Some(left))
}

// Writes a `^` at the front, and keeps the lookaheads behind it. What follows.
fn write_front<'a>(
    searches: &mut Searches,
    alloc: Global,
    unicode: bool,
    text: &'a [char],
) -> Result<Option<&'a [char]>, AllocError>
    ensures value { IfOk result (λ o. option_map {U = Front} (λ u. (seen searches.new, u.now)) o ≡ option_map {U = Front} (λ f. (joined (seen searches.old) f.0, f.1)) (front unicode text.now)) }
    ensures shorter { IfOk result (λ o. IfSome o (λ u. length u.now ≤ length text.now)) }
{
    let Some(rest) = after('^', text) else {
        return Ok(Some(text));
    };
    searches.own.push('^')?;
    let left = push_looks(&mut searches.beside, alloc, unicode, false, rest)?;
    Ok(left)
}

// Writes a `$` at the end behind lookbehinds, and keeps these. Whether nothing else stands here.
fn write_rear(
    searches: &mut Searches,
    alloc: Global,
    unicode: bool,
    text: &[char],
) -> Result<bool, AllocError>
    ensures { IfOk result (λ b. (if b then Some (seen searches.new) else None) ≡ option_map (joined (seen searches.old)) (rear unicode text.now)) }
{
    if text.is_empty() {
        return Ok(true);
    }
    let Some(left) = push_looks(&mut searches.beside, alloc, unicode, true, text)? else {
        return Ok(false);
    };
    if !is_only('$', left) {
        return Ok(false);
    }
    searches.own.push('$')?;
    Ok(true)
}

/// Writes a pattern with lookaheads and lookbehinds at its ends. Whether it is one.
pub fn write_with_ends(
    searches: &mut Searches,
    alloc: Global,
    unicode: bool,
    text: &[char],
) -> Result<bool, AllocError>
    ensures { IfOk result (λ b. (if b then Some (seen searches.new) else None) ≡ option_map (joined (seen searches.old)) (with_ends unicode text.now)) }
{
    let Some(body) = write_front(searches, alloc, unicode, text)? else {
        return Ok(false);
    };
    let Some(left) = write_pieces(&mut searches.own, unicode, false, body)? else {
        return Ok(false);
    };
    let whole = write_rear(searches, alloc, unicode, left)?;
    Ok(whole)
}
