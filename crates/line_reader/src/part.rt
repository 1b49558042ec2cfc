//! A part of a line, of what a read gave.
ghost use Rattle.std.specs.Prelude.{IfOk};
ghost use Rattle.line_reader.specs.Reading.{IsPart};
ghost use Rattle.line_reader.specs.State.{buffer_line, window_held};

use crate::buffer::LineBuffer;
use crate::feed::first_feed;
use crate::window::Window;
use std::alloc::AllocError;

/// Moves what is held up to the first line feed to the line, and leaves the line feed out. Says whether there is one.
pub(crate) fn take_part(window: &mut Window, line: &mut LineBuffer) -> Result<bool, AllocError>
    ensures { IfOk result (λ b. IsPart (window_held window.old) (window_held window.new) (buffer_line line.old) (buffer_line line.new) b) }
{
    let rest = window.rest();
    match first_feed(rest) {
        Some(place) => {
            line.push(&rest[..place])?;
            window.skip(place + 1);
            Ok(true)
        }
        None => {
            line.push(rest)?;
            window.clear();
            Ok(false)
        }
    }
}
