//! The lines of a source, one after another.
ghost use Rattle.std.specs.Prelude.{◌≡◌, ◌<◌, ◌≤◌, ℕ, List, [], length, Option, IfSome, IfNone, IfOk, IfErr, IsErrOf, option_map};
ghost use Rattle.schema_defs.specs.Faults.{Rises};
ghost use Rattle.run_io.specs.Bytes.{IsSpent};
ghost use Rattle.line_reader.specs.Reading.{IsBegun, IsFound, IsMore, IsOverrun, IsPart, IsRead, IsStopped, IsTooLong, last_found as last_found_of};

use crate::buffer::LineBuffer;
use crate::found::{Found, last_found};
use crate::part::take_part;
use crate::window::Window;
use run_io::{InputFault, Source};
use std::alloc::{AllocError, Global};

// The most bytes that are read.
const MOST: u64 = 4_294_967_296;

/// Reads the lines of a source. Of a line at most 1,048,576 bytes are held, and of what comes behind it one read.
#[derive(Drop)]
pub struct LineReader {
    window: Window,
    line: LineBuffer,
    count: u64,
    ghost within: { count ≤ 4294967296 },
}

impl LineReader {
    ghost use Rattle.line_reader.specs.State.{count_of, held, line_in};

    /// A reader that has read nothing.
    pub fn new(alloc: Global) -> Result<LineReader, AllocError>
        ensures held { IfOk result (λ r. held r ≡ []) }
        ensures count { IfOk result (λ r. count_of r ≡ 0) }
    {
        let window = Window::new(alloc)?;
        Ok(LineReader {
            window,
            line: LineBuffer::new(alloc),
            count: 0,
        })
    }

    /// The line that was found last, without what ends it; nothing where it has more than 1,048,576 bytes.
    pub fn line(&self) -> Option<&[u8]>
        ensures { option_map (λ s. s.now) result ≡ line_in self.now }
    {
        self.line.line()
    }

    /// Looks for the next line. Fails with `Memory` where memory runs out, with `Failed` where the source fails, and with `TooLong`
    /// where 4,294,967,296 bytes were read and more come.
    pub fn next_line<S: Source>(&mut self, source: &mut S) -> Result<Found, InputFault>
        ensures found { IfOk result (λ f. IsFound (held self.old) (held self.new) (S.left source.old) (S.left source.new) (count_of self.old) (count_of self.new) (line_in self.new) f) }
        ensures failed { IsErrOf result InputFault.Failed → IsStopped (held self.old) (S.left source.old) (S.left source.new) }
        ensures too_long { IsErrOf result InputFault.TooLong → IsOverrun (held self.old) (S.left source.old) (S.left source.new) (count_of self.old) }
        ensures fault { IsErrOf result InputFault.Failed → Rises (S.faults source.old) (S.faults source.new) }
        ensures kept { S.faults source.old ≤ S.faults source.new }
    {
        self.line.clear();
        if self.take()? {
            return Ok(Found::Line);
        }
        loop {
            if let Some(found) = self.read_on(source)? {
                return Ok(found);
            }
        }
    }

    /// Looks for the first line, as `next_line` does, but answers nothing as soon as the line has more than 1,048,576 bytes.
    pub fn first_line<S: Source>(&mut self, source: &mut S) -> Result<Option<Found>, InputFault>
        ensures found { IfOk result (λ o. IfSome o (λ f. IsFound (held self.old) (held self.new) (S.left source.old) (S.left source.new) (count_of self.old) (count_of self.new) (line_in self.new) f)) }
        ensures long { IfOk result (λ o. IfNone o (IsTooLong (held self.old) (S.left source.old) (S.left source.new))) }
        ensures failed { IsErrOf result InputFault.Failed → IsStopped (held self.old) (S.left source.old) (S.left source.new) }
        ensures too_long { IsErrOf result InputFault.TooLong → IsOverrun (held self.old) (S.left source.old) (S.left source.new) (count_of self.old) }
        ensures fault { IsErrOf result InputFault.Failed → Rises (S.faults source.old) (S.faults source.new) }
        ensures kept { S.faults source.old ≤ S.faults source.new }
    {
        self.line.clear();
        if self.take()? {
            return Ok(Some(Found::Line));
        }
        loop {
            if self.line.is_long() {
                return Ok(None);
            }
            if let Some(found) = self.read_on(source)? {
                return Ok(Some(found));
            }
        }
    }

    // Takes the line's next part of what is held, and says whether it ends.
    fn take(&mut self) -> Result<bool, InputFault>
        ensures part { IfOk result (λ b. IsPart (held self.old) (held self.new) (line_in self.old) (line_in self.new) b) }
        ensures count { count_of self.new ≡ count_of self.old }
        ensures memory { IfErr result (λ e. e ≡ InputFault.Memory) }
    {
        match take_part(&mut self.window, &mut self.line) {
            Ok(ended) => Ok(ended),
            Err(_) => Err(InputFault::Memory),
        }
    }

    // Reads on in a line that has begun, where nothing is held, and takes its next part. Says what was found, if the line is at its end.
    fn read_on<S: Source>(&mut self, source: &mut S) -> Result<Option<Found>, InputFault>
        requires { held self.old ≡ [] }
        ensures found { (old : List ℕ) (left : Option (List ℕ)) (count : ℕ) → IsBegun old (held self.old) left (S.left source.old) count (count_of self.old) (line_in self.old)
            → IfOk result (λ o. IfSome o (λ f. IsFound old (held self.new) left (S.left source.new) count (count_of self.new) (line_in self.new) f)) }
        ensures more { (old : List ℕ) (left : Option (List ℕ)) (count : ℕ) → IsBegun old (held self.old) left (S.left source.old) count (count_of self.old) (line_in self.old)
            → IfOk result (λ o. IfNone o (IsBegun old (held self.new) left (S.left source.new) count (count_of self.new) (line_in self.new))) }
        ensures none_held { IfOk result (λ o. IfNone o (held self.new ≡ [])) }
        ensures counted { IfOk result (λ o. IfNone o (count_of self.old < count_of self.new)) }
        ensures failed { (old : List ℕ) (left : Option (List ℕ)) (count : ℕ) → IsBegun old (held self.old) left (S.left source.old) count (count_of self.old) (line_in self.old)
            → IsErrOf result InputFault.Failed → IsStopped old left (S.left source.new) }
        ensures too_long { (old : List ℕ) (left : Option (List ℕ)) (count : ℕ) → IsBegun old (held self.old) left (S.left source.old) count (count_of self.old) (line_in self.old)
            → IsErrOf result InputFault.TooLong → IsOverrun old left (S.left source.new) count }
        ensures fault { IsErrOf result InputFault.Failed → Rises (S.faults source.old) (S.faults source.new) }
        ensures kept { S.faults source.old ≤ S.faults source.new }
    {
        let count = self.fill(source)?;
        if count == 0 {
            return Ok(Some(self.found_last()));
        }
        let ended = self.take()?;
        Ok(if ended { Some(Found::Line) } else { None })
    }

    // What there is where no more bytes come.
    fn found_last(&self) -> Found
        ensures { result ≡ last_found_of (line_in self.now) }
    {
        match self.line.line() {
            Some(bytes) => last_found(bytes),
            None => Found::Last,
        }
    }

    // Reads the next bytes in place of those that are held, and says how many. None is the end.
    fn fill<S: Source>(&mut self, source: &mut S) -> Result<usize, InputFault>
        ensures read { IfOk result (λ n. IsRead (S.left source.old) (S.left source.new) (count_of self.old) (count_of self.new) (held self.new)) }
        ensures count { IfOk result (λ n. n ≡ length (held self.new)) }
        ensures end { IfOk result (λ n. n ≡ 0 → IsSpent (S.left source.old)) }
        ensures line { line_in self.new ≡ line_in self.old }
        ensures failed { IsErrOf result InputFault.Failed → S.left source.new ≡ S.left source.old }
        ensures too_long { IsErrOf result InputFault.TooLong → IsMore (S.left source.old) (S.left source.new) (count_of self.old) }
        ensures fault { IsErrOf result InputFault.Failed → Rises (S.faults source.old) (S.faults source.new) }
        ensures kept { S.faults source.old ≤ S.faults source.new }
    {
        let left = MOST - self.count;
        let read = match self.window.fill(source, left.max(1) as usize) {
            Ok(read) => read,
            Err(_) => return Err(InputFault::Failed),
        };
        if read as u64 > left {
            return Err(InputFault::TooLong);
        }
        self.count += read as u64;
        Ok(read)
    }
}
