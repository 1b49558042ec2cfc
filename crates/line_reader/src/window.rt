//! The bytes of a read that weren't looked at yet.
ghost use Rattle.std.specs.Prelude.{◌≡◌, ◌+◌, ◌<◌, ◌≤◌, [], length, drop, take, IfOk, OnErr, vec_len};
ghost use Rattle.schema_defs.specs.Faults.{Rises};
ghost use Rattle.run_io.specs.Bytes.{IsSpent, Takes};

use run_io::{Failed, Source};
use std::alloc::{AllocError, Global};

// The most that one read takes, in bytes.
const PIECE: usize = 65536;

/// What a read gave, from `at` up to `end`.
#[derive(Drop)]
pub(crate) struct Window {
    bytes: Vec<u8>,
    at: usize,
    end: usize,
    ghost in_order: { at ≤ end },
    ghost in_range: { end ≤ vec_len bytes },
    ghost has_room: { 1 ≤ vec_len bytes },
}

impl Window {
    ghost use Rattle.line_reader.specs.State.{window_held};

    /// A window that holds nothing.
    pub(crate) fn new(alloc: Global) -> Result<Window, AllocError>
        ensures { IfOk result (λ w. window_held w ≡ []) }
    {
        let bytes = piece(alloc)?;
        Ok(Window {
            bytes,
            at: 0,
            end: 0,
        })
    }

    /// The bytes.
    pub(crate) fn rest(&self) -> &[u8]
        ensures { result.now ≡ window_held self.now }
    {
        let front = &self.bytes[..self.end];
        &front[self.at..]
    }

    /// Leaves out the first of them.
    pub(crate) fn skip(&mut self, count: usize)
        requires { count ≤ length (window_held self.old) }
        ensures { window_held self.new ≡ drop count (window_held self.old) }
    {
        self.at += count;
    }

    /// Leaves all of them out.
    pub(crate) fn clear(&mut self)
        ensures { window_held self.new ≡ [] }
    {
        self.at = self.end;
    }

    /// Reads at most that many bytes, in place of those that it holds, and says how many. None is the end.
    pub(crate) fn fill<S: Source>(&mut self, source: &mut S, most: usize) -> Result<usize, Failed>
        requires { 1 ≤ most }
        ensures within { IfOk result (λ n. n ≤ most) }
        ensures count { IfOk result (λ n. n ≡ length (window_held self.new)) }
        ensures taken { IfOk result (λ n. Takes (S.left source.old) (S.left source.new) (window_held self.new)) }
        ensures end { IfOk result (λ n. n ≡ 0 → IsSpent (S.left source.old)) }
        ensures unchanged { OnErr result (S.left source.new ≡ S.left source.old) }
        ensures fault { OnErr result (Rises (S.faults source.old) (S.faults source.new)) }
        ensures kept { S.faults source.old ≤ S.faults source.new }
    {
        let count = read_front(source, self.bytes.as_mut_slice(), most)?;
        self.at = 0;
        self.end = count;
        Ok(count)
    }
}

// Reads at most that many bytes to the front of the buffer, and says how many. None is the end.
fn read_front<S: Source>(source: &mut S, buffer: &mut [u8], most: usize) -> Result<usize, Failed>
    requires some { 1 ≤ most }
    requires room { 1 ≤ length buffer.old }
    ensures within { IfOk result (λ n. n ≤ most) }
    ensures in_range { IfOk result (λ n. n ≤ length buffer.new) }
    ensures taken { IfOk result (λ n. Takes (S.left source.old) (S.left source.new) (take n buffer.new)) }
    ensures end { IfOk result (λ n. n ≡ 0 → IsSpent (S.left source.old)) }
    ensures unchanged { OnErr result (S.left source.new ≡ S.left source.old) }
    ensures fault { OnErr result (Rises (S.faults source.old) (S.faults source.new)) }
    ensures kept { S.faults source.old ≤ S.faults source.new }
{
    let room = most.min(buffer.len());
    source.read(&mut buffer[..room])
}

// A buffer of a piece's length.
fn piece(alloc: Global) -> Result<Vec<u8>, AllocError>
    ensures { IfOk result (λ v. vec_len v ≡ 65536) }
{
    vec![in alloc; 0u8; PIECE]
}
