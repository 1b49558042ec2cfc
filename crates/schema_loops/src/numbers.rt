//! The numbers of the targets of references.
ghost use Rattle.std.specs.Prelude.{◌≡◌, ℕ, List, length, IfOk, unwrap_or};
ghost use Rattle.schema_defs.specs.Location.{unescaped};
ghost use Rattle.schema_loops.specs.Named.{seen, place_named, number_of_name, number_by};

use crate::decoding::decoded;
use schema_types::written_name;
use std::alloc::{AllocError, Global};
use std::collections::BTreeMap;

// How many targets there are, and the numbers of those that have names.
#[derive(Drop)]
pub(crate) struct Numbers<'a> {
    pub(crate) count: usize,
    pub(crate) by_name: BTreeMap<&'a [u8], usize>,
}

impl<'a> Numbers<'a> {
    // The numbers of these targets, each of which has its place for a number.
    pub(crate) fn new(alloc: Global, targets: &[Option<&'a str>]) -> Result<Numbers<'a>, AllocError>
        ensures count { IfOk result (λ m. m.count ≡ length targets.now) }
        ensures names { IfOk result (λ m. (n : List ℕ) → number_of_name m.by_name n ≡ place_named n 0 (seen targets.now)) }
    {
        let mut by_name = BTreeMap::new(alloc);
        for place in (0..targets.len()).rev() {
            if let Some(name) = &targets[place] {
                by_name.insert(name.as_bytes(), place)?;
            }
        }
        Ok(Numbers {
            count: targets.len(),
            by_name,
        })
    }

    // The number of a reference's target, or how many targets there are where it has none.
    pub(crate) fn of_reference(&self, alloc: Global, reference: &str) -> Result<usize, AllocError>
        ensures { IfOk result (λ n. n ≡ number_by (number_of_name self.now.by_name) self.now.count reference.now) }
    {
        if reference == "#" {
            return Ok(0);
        }
        match written_name(reference) {
            Some(name) => self.of_written_name(alloc, name),
            None => Ok(self.count),
        }
    }

    fn of_written_name(&self, alloc: Global, name: &str) -> Result<usize, AllocError>
        ensures { IfOk result (λ n. n ≡ unwrap_or (number_of_name self.now.by_name (unescaped name.now)) self.now.count) }
    {
        let name = decoded(alloc, name)?;
        match self.by_name.get(name.as_slice()) {
            Some(number) => Ok(*number),
            None => Ok(self.count),
        }
    }
}
