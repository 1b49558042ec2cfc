//! Where reading a pattern stops that isn't plain.
ghost use Rattle.std.specs.Prelude.{◌≡◌, ◌≤◌, length, take, IfOk, chars, option_map, string_bytes};
ghost use Rattle.plain_patterns.specs.Ends.{is_plain as is_plain_pattern, shorter as shorter_of, stop_at, stop_of, unread_in as unread_in_mode, unread_looks as unread_looks_of, unread_of, unread_pieces};

use crate::counts::write_all;
use crate::look::{after, look, looks_behind};
use crate::piece::write_piece;
use crate::state::State;
use crate::{characters_of, plain_pattern};
use std::alloc::{AllocError, Global};

/// Where reading stops.
#[derive(Drop)]
pub struct Stop {
    /// How many characters were read.
    pub read: usize,
    /// The next eight, or those that are left. Where none is, a group is open.
    pub next: String,
}

/// What is left of a text from the first piece on that can't stand where it does.
fn unread<'a>(
    alloc: Global,
    unicode: bool,
    bars: bool,
    text: &'a [char],
) -> Result<&'a [char], AllocError>
    ensures value { IfOk result (λ u. u.now ≡ unread_pieces unicode bars text.now) }
    ensures within { IfOk result (λ u. length u.now ≤ length text.now) }
{
    let mut out = String::new(alloc);
    let mut left = text;
    let mut state = State::start(bars);
    while let Some((first, rest)) = left.split_first() {
        let Some((kind, after)) = write_piece(&mut out, unicode, *first, rest)? else {
            return Ok(left);
        };
        let Some(next) = state.after(kind) else {
            return Ok(left);
        };
        state = next;
        left = after;
    }
    Ok(left)
}

/// What is left where lookaheads stand first.
fn unread_looks<'a>(
    alloc: Global,
    unicode: bool,
    text: &'a [char],
) -> Result<&'a [char], AllocError>
    ensures value { IfOk result (λ u. u.now ≡ unread_looks_of unicode (length text.now) text.now) }
    ensures within { IfOk result (λ u. length u.now ≤ length text.now) }
{
    let mut left = text;
    while let Some((_, inner)) = look(false, left) {
        let stop = unread(alloc, unicode, true, inner)?;
        let Some(rest) = after(')', stop) else {
            return Ok(stop);
        };
        left = rest;
    }
    let stop = unread(alloc, unicode, false, left)?;
    Ok(stop)
}

/// What is left in one mode.
fn unread_in<'a>(alloc: Global, unicode: bool, text: &'a [char]) -> Result<&'a [char], AllocError>
    ensures value { IfOk result (λ u. u.now ≡ unread_in_mode unicode text.now) }
    ensures within { IfOk result (λ u. length u.now ≤ length text.now) }
{
    match looks_behind(text) {
        Some(rest) => {
            let stop = unread_looks(alloc, unicode, rest)?;
            Ok(stop)
        }
        None => {
            let stop = unread(alloc, unicode, true, text)?;
            Ok(stop)
        }
    }
}

fn shorter<'a>(one: &'a [char], other: &'a [char]) -> &'a [char]
    ensures { result.now ≡ shorter_of one.now other.now }
{
    if other.len() < one.len() { other } else { one }
}

/// What is left in the mode that reads further.
fn left_of<'a>(alloc: Global, text: &'a [char]) -> Result<&'a [char], AllocError>
    ensures value { IfOk result (λ u. u.now ≡ unread_of text.now) }
    ensures within { IfOk result (λ u. length u.now ≤ length text.now) }
{
    let plainly = unread_in(alloc, false, text)?;
    let in_unicode_mode = unread_in(alloc, true, text)?;
    Ok(shorter(plainly, in_unicode_mode))
}

/// The first eight, or all.
fn front(text: &[char]) -> &[char]
    ensures { result.now ≡ take 8 text.now }
{
    if text.len() < 8 {
        return text;
    }
    &text[..8]
}

fn stop_in(alloc: Global, text: &[char]) -> Result<Stop, AllocError>
    ensures { IfOk result (λ s. (s.read, string_bytes s.next) ≡ stop_at text.now) }
{
    let left = left_of(alloc, text)?;
    let mut next = String::new(alloc);
    write_all(&mut next, front(left))?;
    Ok(Stop {
        read: text.len() - left.len(),
        next,
    })
}

fn is_plain(alloc: Global, pattern: &str) -> Result<bool, AllocError>
    ensures { IfOk result (λ b. b ≡ is_plain_pattern pattern.now) }
{
    let written = plain_pattern(alloc, pattern)?;
    Ok(written.is_some())
}

fn read_to(alloc: Global, pattern: &str) -> Result<Stop, AllocError>
    ensures { IfOk result (λ s. (s.read, string_bytes s.next) ≡ stop_at (chars pattern.now)) }
{
    let characters = characters_of(alloc, pattern)?;
    stop_in(alloc, characters.as_slice())
}

/// How many characters at the front of a pattern are pieces that stand in order, and what follows them, in that of the two
/// modes of `plain_pattern` that reads further; nothing where the pattern is plain. Fails where memory runs out.
pub fn reading_stop(alloc: Global, pattern: &str) -> Result<Option<Stop>, AllocError>
    ensures { IfOk result (λ o. option_map (λ s. (s.read, string_bytes s.next)) o ≡ stop_of pattern.now) }
{
    if is_plain(alloc, pattern)? {
        return Ok(None);
    }
    let found = read_to(alloc, pattern)?;
    Ok(Some(found))
}
