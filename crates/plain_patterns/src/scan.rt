//! The pieces of a pattern, one after the other.
ghost use Rattle.std.specs.Prelude.{◌≡◌, ◌≤◌, length, IfOk, IfSome, option_map, string_bytes};
ghost use Rattle.plain_patterns.specs.Plain.{after_head};
ghost use Rattle.plain_patterns.specs.Ends.{is_end as ends_at, sequence};

use crate::class::begins;
use crate::look::look;
use crate::piece::write_piece;
use crate::state::State;
use std::alloc::AllocError;

/// Whether pieces end here, outside of groups.
fn is_end(state: State, text: &[char]) -> bool
    ensures { result ≡ ends_at state text.now }
{
    state.depth == 0 && (begins(text, ')') || look(true, text).is_some())
}

/// Writes pieces for `regex`, up to where they end. What is left there, or nothing where a piece can't stand where it does.
pub fn write_pieces<'a>(
    out: &mut String,
    unicode: bool,
    bars: bool,
    text: &'a [char],
) -> Result<Option<&'a [char]>, AllocError>
    ensures value { IfOk result (λ o. option_map (λ u. (string_bytes out.new, u.now)) o ≡ after_head (string_bytes out.old) (sequence unicode bars text.now)) }
    ensures shorter { IfOk result (λ o. IfSome o (λ u. length u.now ≤ length text.now)) }
{
    let mut left = text;
    let mut state = State::start(bars);
    while let Some((first, rest)) = left.split_first() {
        if is_end(state, left) {
            return Ok(Some(left));
        }
        let Some((kind, after)) = write_piece(out, unicode, *first, rest)? else {
            return Ok(None);
        };
        let Some(next) = state.after(kind) else {
            return Ok(None);
        };
        state = next;
        left = after;
    }
    if state.depth == 0 {
        return Ok(Some(left));
    }
    Ok(None)
}
