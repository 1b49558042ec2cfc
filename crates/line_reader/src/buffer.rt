//! One line as it is gathered.
ghost use Rattle.std.specs.Prelude.{◌≡◌, ◌≤◌, ◌↔◌, [], Some, None, OnOk, IsTrue, vec_len, option_map};

use std::alloc::{AllocError, Global};

// The most bytes of a line that is kept.
const BOUND: usize = 1_048_576;

/// A line, of which at most 1,048,576 bytes are kept; of one that is longer, none.
#[derive(Drop)]
pub(crate) struct LineBuffer {
    bytes: Vec<u8>,
    is_long: bool,
    ghost within: { vec_len bytes ≤ 1048576 },
}

impl LineBuffer {
    ghost use Rattle.line_reader.specs.State.{buffer_line};
    ghost use Rattle.line_reader.specs.Reading.{IsGrown};

    /// An empty line.
    pub(crate) fn new(alloc: Global) -> LineBuffer {
        LineBuffer {
            bytes: Vec::new(alloc),
            is_long: false,
        }
    }

    /// Begins an empty line.
    pub(crate) fn clear(&mut self)
        ensures { buffer_line self.new ≡ Some [] }
    {
        self.bytes.clear();
        self.is_long = false;
    }

    /// One more part of the line.
    #[tactic(auto, using(crate::proofs::Growing::grown_long, crate::proofs::Growing::grown_past, crate::proofs::Growing::grown_short))]
    pub(crate) fn push(&mut self, part: &[u8]) -> Result<(), AllocError>
        ensures { OnOk result (IsGrown (buffer_line self.old) (buffer_line self.new) part.now) }
    {
        if self.is_long {
            return Ok(());
        }
        if part.len() > BOUND - self.bytes.len() {
            self.is_long = true;
            return Ok(());
        }
        self.bytes.extend_from_slice(part)?;
        Ok(())
    }

    /// The line, where it isn't longer than is kept.
    pub(crate) fn line(&self) -> Option<&[u8]>
        ensures { option_map (λ s. s.now) result ≡ buffer_line self.now }
    {
        if self.is_long {
            None
        } else {
            Some(self.bytes.as_slice())
        }
    }

    /// Whether it is longer than is kept.
    pub(crate) fn is_long(&self) -> bool
        ensures { IsTrue result ↔ (buffer_line self.now ≡ None) }
    {
        self.is_long
    }
}
