//! Sources and sinks in memory: plain ones, which never fail, and ones that fail at given calls.
ghost use Rattle.std.specs.Prelude.{◌≡◌, ◌↔◌, ◌+◌, ◌-◌, ◌^◌, ◌<◌, ◌≤◌, ◌++◌, [], length, take, min, Contains, Some, IfOk, IfErr, OnOk, OnErr, IsErr, IsErrOf, vec_len};

use crate::fault::{Failed, SinkFault};
use crate::outside::{Sink, Source};
use crate::schedule::Schedule;
use std::alloc::Global;

/// A source over bytes in memory. It never fails, and gives as much as there is room for.
#[derive(Drop)]
pub struct PlainSource {
    bytes: Vec<u8>,
    at: usize,
    ghost in_range: { at ≤ vec_len bytes },
}

/// A source over bytes in memory that gives at most `piece` bytes a call, and fails at the calls of given numbers.
#[derive(Drop)]
pub struct MemorySource {
    inner: PlainSource,
    piece: usize,
    schedule: Schedule,
    ghost gives_some: { 1 ≤ piece },
}

/// A sink that keeps its bytes in memory. It fails for want of memory alone.
#[derive(Drop)]
pub struct PlainSink {
    bytes: Vec<u8>,
}

/// A sink that keeps its bytes in memory, takes at most `piece` bytes a call, and fails at the calls of given numbers.
#[derive(Drop)]
pub struct MemorySink {
    inner: PlainSink,
    piece: usize,
    schedule: Schedule,
}

impl PlainSource {
    ghost use Rattle.run_io.specs.Memory.{plain_left};

    /// A source that has these bytes left.
    pub fn new(bytes: Vec<u8>) -> PlainSource
        ensures left { plain_left result ≡ bytes.items }
        ensures never_faulty { (source : PlainSource) → ⟦<PlainSource as Source>⟧.faults source ≡ 0 }
    {
        PlainSource { bytes, at: 0 }
    }

    /// Moves bytes to the front of `into`: as many as there are, as it has room for, and at most `most`.
    fn give(&mut self, into: &mut [u8], most: usize) -> usize
        ensures count { result ≡ min most (min (length into.new) (length (plain_left self.old))) }
        ensures taken { plain_left self.old ≡ take result into.new ++ plain_left self.new }
    {
        let rest = &self.bytes[self.at..];
        let count = most.min(into.len().min(rest.len()));
        copy_front(into, &rest[..count]);
        self.at += count;
        count
    }
}

impl Source for PlainSource {
    ghost use Rattle.run_io.specs.Memory.{plain_left};

    ghost left = { λ s. Some (plain_left s) };

    ghost faults = { λ _. 0 };

    fn read(&mut self, into: &mut [u8]) -> Result<usize, Failed>
        ensures within { IfOk result (λ n. n ≤ length into.new) }
        ensures taken { IfOk result (λ n. plain_left self.old ≡ take n into.new ++ plain_left self.new) }
        ensures count { result ≡ Ok (min (length into.new) (length (plain_left self.old))) }
    {
        let most = into.len();
        Ok(self.give(into, most))
    }
}

impl MemorySource {
    ghost use Rattle.run_io.specs.Memory.{source_failing, source_faults, source_left, source_next, source_piece};

    /// A source that has these bytes left, gives at most `piece` of them a call, and fails at the calls of those numbers,
    /// counted from 0.
    pub fn new(bytes: Vec<u8>, piece: usize, failing: Vec<u64>) -> MemorySource
        requires { 1 ≤ piece }
        ensures left { source_left result ≡ bytes.items }
        ensures piece { source_piece result ≡ piece }
        ensures failing { source_failing result ≡ failing.items }
        ensures next { source_next result ≡ 0 }
        ensures faults { source_faults result ≡ 0 }
    {
        MemorySource {
            inner: PlainSource::new(bytes),
            piece,
            schedule: Schedule::new(failing),
        }
    }
}

impl Source for MemorySource {
    ghost use Rattle.run_io.specs.Memory.{source_failing, source_faults, source_left, source_next, source_piece};

    ghost left = { λ s. Some (source_left s) };

    ghost faults = { source_faults };

    fn read(&mut self, into: &mut [u8]) -> Result<usize, Failed>
        ensures fails { IsErr result ↔ Contains (source_failing self.old) (source_next self.old) }
        ensures taken { IfOk result (λ n. source_left self.old ≡ take n into.new ++ source_left self.new) }
        ensures count { IfOk result (λ n. n
            ≡ min (source_piece self.old) (min (length into.new) (length (source_left self.old)))) }
        ensures unchanged { OnErr result (source_left self.new ≡ source_left self.old) }
        ensures next { source_next self.new ≡ min (source_next self.old + 1) (2 ^ 64 - 1) }
        ensures fault { OnErr result (source_faults self.new ≡ min (source_faults self.old + 1) (2 ^ 64 - 1)) }
        ensures quiet { OnOk result (source_faults self.new ≡ source_faults self.old) }
        ensures kept { source_faults self.old ≤ source_faults self.new }
        ensures piece { source_piece self.new ≡ source_piece self.old }
        ensures failing { source_failing self.new ≡ source_failing self.old }
    {
        if self.schedule.is_due() {
            self.schedule.add_fault();
            return Err(Failed);
        }
        Ok(self.inner.give(into, self.piece))
    }
}

impl PlainSink {
    ghost use Rattle.run_io.specs.Memory.{plain_written};

    /// A sink that has taken nothing yet. It keeps its bytes in memory of `alloc`.
    pub fn new(alloc: Global) -> PlainSink
        ensures written { plain_written result ≡ [] }
        ensures never_faulty { (sink : PlainSink) → ⟦<PlainSink as Sink>⟧.faults sink ≡ 0 }
    {
        PlainSink {
            bytes: Vec::new(alloc),
        }
    }

    /// The bytes that it has taken, in order.
    pub fn written(&self) -> &[u8]
        ensures { result.now ≡ plain_written self.now }
    {
        self.bytes.as_slice()
    }

    /// Takes bytes off the front: as many as there are, and at most `most`.
    fn take(&mut self, bytes: &[u8], most: usize) -> Result<usize, SinkFault>
        ensures count { IfOk result (λ n. n ≡ min most (length bytes.now)) }
        ensures appended { IfOk result (λ n. plain_written self.new ≡ plain_written self.old ++ take n bytes.now) }
        ensures unchanged { OnErr result (plain_written self.new ≡ plain_written self.old) }
        ensures memory { IfErr result (λ e. e ≡ SinkFault.Memory) }
    {
        let count = most.min(bytes.len());
        match self.bytes.extend_from_slice(&bytes[..count]) {
            Ok(()) => Ok(count),
            Err(_) => Err(SinkFault::Memory),
        }
    }
}

impl Sink for PlainSink {
    ghost use Rattle.run_io.specs.Memory.{plain_written};

    ghost written = { λ s. Some (plain_written s) };

    ghost faults = { λ _. 0 };

    fn write(&mut self, bytes: &[u8]) -> Result<usize, SinkFault>
        ensures count { IfOk result (λ n. n ≡ length bytes.now) }
        ensures appended { IfOk result (λ n. plain_written self.new ≡ plain_written self.old ++ take n bytes.now) }
        ensures unchanged { OnErr result (plain_written self.new ≡ plain_written self.old) }
        ensures memory { IfErr result (λ e. e ≡ SinkFault.Memory) }
    {
        self.take(bytes, bytes.len())
    }
}

impl MemorySink {
    ghost use Rattle.run_io.specs.Memory.{sink_failing, sink_faults, sink_next, sink_piece, sink_written};

    /// A sink that has taken nothing yet, takes at most `piece` bytes a call, and fails at the calls of those numbers,
    /// counted from 0. It keeps its bytes in memory of `alloc`. One of piece 0 takes nothing, and counts a fault where
    /// there was a byte to take.
    pub fn new(alloc: Global, piece: usize, failing: Vec<u64>) -> MemorySink
        ensures written { sink_written result ≡ [] }
        ensures piece { sink_piece result ≡ piece }
        ensures failing { sink_failing result ≡ failing.items }
        ensures next { sink_next result ≡ 0 }
        ensures faults { sink_faults result ≡ 0 }
    {
        MemorySink {
            inner: PlainSink::new(alloc),
            piece,
            schedule: Schedule::new(failing),
        }
    }

    /// The bytes that it has taken, in order.
    pub fn written(&self) -> &[u8]
        ensures { result.now ≡ sink_written self.now }
    {
        self.inner.written()
    }
}

impl Sink for MemorySink {
    ghost use Rattle.run_io.specs.Memory.{sink_failing, sink_faults, sink_next, sink_piece, sink_written};

    ghost written = { λ s. Some (sink_written s) };

    ghost faults = { sink_faults };

    fn write(&mut self, bytes: &[u8]) -> Result<usize, SinkFault>
        ensures fails { IsErrOf result SinkFault.Failed ↔ Contains (sink_failing self.old) (sink_next self.old) }
        ensures count { IfOk result (λ n. n ≡ min (sink_piece self.old) (length bytes.now)) }
        ensures appended { IfOk result (λ n. sink_written self.new ≡ sink_written self.old ++ take n bytes.now) }
        ensures unchanged { OnErr result (sink_written self.new ≡ sink_written self.old) }
        ensures next { sink_next self.new ≡ min (sink_next self.old + 1) (2 ^ 64 - 1) }
        ensures fault { IsErrOf result SinkFault.Failed
            → sink_faults self.new ≡ min (sink_faults self.old + 1) (2 ^ 64 - 1) }
        ensures stalled { IfOk result (λ n. n ≡ 0 → 0 < length bytes.now
            → sink_faults self.new ≡ min (sink_faults self.old + 1) (2 ^ 64 - 1)) }
        ensures quiet { IfOk result (λ n. 0 < n → sink_faults self.new ≡ sink_faults self.old) }
        ensures kept { sink_faults self.old ≤ sink_faults self.new }
        ensures piece { sink_piece self.new ≡ sink_piece self.old }
        ensures failing { sink_failing self.new ≡ sink_failing self.old }
    {
        if self.schedule.is_due() {
            self.schedule.add_fault();
            return Err(SinkFault::Failed);
        }
        if self.piece == 0 && !bytes.is_empty() {
            self.schedule.add_fault();
        }
        self.inner.take(bytes, self.piece)
    }
}

// Copies the bytes to the front of `into`.
fn copy_front(into: &mut [u8], bytes: &[u8])
    requires { length bytes.now ≤ length into.old }
    ensures { take (length bytes.now) into.new ≡ bytes.now }
{
    into[..bytes.len()].copy_from_slice(bytes);
}
