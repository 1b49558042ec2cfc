//! A source whose bytes are kept, so that what isn't JSON can be named by its place.

use run_input::LIMIT;
use serde_json::Value;
use std::alloc::Global;
use typify_run::{Failed, Source};

/// A source that gives what another gives, and keeps it as far as memory goes.
#[derive(Drop)]
pub struct KeptSource<S: Source + Drop> {
    source: S,
    bytes: Vec<u8>,
    // whether all that was read is kept
    whole: bool,
}

impl<S: Source + Drop> KeptSource<S> {
    pub fn new(alloc: Global, source: S) -> KeptSource<S> {
        KeptSource {
            source,
            bytes: Vec::new(alloc),
            whole: true,
        }
    }

    /// Where what was read is seen not to be JSON, or to be nested too deep, if all of it is kept and it isn't longer than
    /// inputs may be: the number of the line, and that of the byte in it, at which or just behind which that is. Both are
    /// those of serde_json's error.
    pub fn stops(&self, alloc: Global) -> Option<(usize, usize)> {
        if !self.whole || self.bytes.len() > LIMIT {
            return None;
        }
        match Value::from_slice(alloc, &self.bytes) {
            Err(error) if !error.is_memory() => Some((error.line(), error.column())),
            _ => None,
        }
    }
}

impl<S: Source + Drop> Source for KeptSource<S> {
    ghost left = { λ s. S.left s.source };

    ghost faults = { λ s. S.faults s.source };

    fn read(&mut self, into: &mut [u8]) -> Result<usize, Failed> {
        let count = self.source.read(into)?;
        if self.bytes.extend_from_slice(&into[..count]).is_err() {
            self.whole = false;
        }
        Ok(count)
    }
}
