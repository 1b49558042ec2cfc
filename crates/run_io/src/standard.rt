//! Standard input as a source and standard output as a sink. What the outside holds or shows is not told.
ghost use Rattle.std.specs.Prelude.{◌≡◌, None};

use crate::fault::{Failed, SinkFault};
use crate::outside::{Sink, Source};
use std::io::{Input, Print, Read};

/// A runtime's standard input. It doesn't tell its bytes.
#[derive(Drop)]
pub struct StdSource<R: Input> {
    reader: R::Reader,
    faults: u64,
}

/// A runtime's standard output. It doesn't tell its bytes.
#[derive(Drop)]
pub struct StdSink<R: Print + Drop> {
    runtime: R,
    faults: u64,
}

impl<R: Input> StdSource<R> {
    /// The standard input of that runtime, from where it stands.
    pub fn new(runtime: &R) -> StdSource<R>
        ensures { ⟦<StdSource<R> as Source>⟧.faults result ≡ 0 }
    {
        StdSource {
            reader: runtime.reader(),
            faults: 0,
        }
    }
}

impl<R: Print + Drop> StdSink<R> {
    /// The standard output of that runtime.
    pub fn new(runtime: R) -> StdSink<R>
        ensures { ⟦<StdSink<R> as Sink>⟧.faults result ≡ 0 }
    {
        StdSink { runtime, faults: 0 }
    }
}

impl<R: Input> Source for StdSource<R> {
    ghost left = { λ _. None };

    ghost faults = { λ s. s.faults };

    fn read(&mut self, into: &mut [u8]) -> Result<usize, Failed> {
        match self.reader.read(into) {
            Ok(count) => Ok(count),
            Err(_) => {
                self.faults = self.faults.saturating_add(1);
                Err(Failed)
            }
        }
    }
}

impl<R: Print + Drop> Sink for StdSink<R> {
    ghost written = { λ _. None };

    ghost faults = { λ s. s.faults };

    fn write(&mut self, bytes: &[u8]) -> Result<usize, SinkFault> {
        match self.runtime.write_some(bytes) {
            Ok(count) => {
                if count == 0 && !bytes.is_empty() {
                    self.faults = self.faults.saturating_add(1);
                }
                Ok(count)
            }
            Err(_) => {
                self.faults = self.faults.saturating_add(1);
                Err(SinkFault::Failed)
            }
        }
    }
}
