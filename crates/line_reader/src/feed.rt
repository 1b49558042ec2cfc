//! Where a line ends.
ghost use Rattle.std.specs.Prelude.{MatchOption};
ghost use Rattle.line_reader.specs.Lines.{IsOpen};
ghost use Rattle.line_reader.specs.Feed.{IsFirstFeed};

use memchr::memchr;

/// The place of the first line feed.
pub(crate) fn first_feed(bytes: &[u8]) -> Option<usize>
    ensures { MatchOption result (IsOpen bytes.now) (λ n. IsFirstFeed bytes.now n) }
{
    memchr(b'\n', bytes)
}
