//! What a reader of lines finds.
ghost use Rattle.std.specs.Prelude.{◌≡◌, Some};
ghost use Rattle.line_reader.specs.Reading.{last_found as last_found_of};

/// What was found.
#[derive(Clone, Copy, Debug, PartialEq, Eq)]
pub enum Found {
    /// A line that a line feed ends.
    Line,
    /// The last line, which no line feed ends.
    Last,
    /// No further line.
    End,
}

/// What there is where no more bytes come than these, since the last line feed.
pub(crate) fn last_found(bytes: &[u8]) -> Found
    ensures { result ≡ last_found_of (Some bytes.now) }
{
    match bytes {
        [] => Found::End,
        _ => Found::Last,
    }
}
