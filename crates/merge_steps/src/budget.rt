//! How much may still be merged.
use crate::size::size_of;
use schema_types::Schema;
use std::cell::Cell;

/// What is merged beside what grows with the input.
const MOST: u64 = 20_000_000;

/// What is merged for each schema, listed value and step of the input.
const MOST_BY_SIZE: u64 = 100;

/// How much may still be merged: schemas, listed values, and the steps of walks, counted each time that two schemas are
/// merged, with all that stands inside them.
#[derive(Drop)]
pub struct Budget {
    left: Cell<u64>,
}

impl Budget {
    /// For an input of that size.
    pub fn new(size: u64) -> Budget {
        let left = MOST.saturating_add(size.saturating_mul(MOST_BY_SIZE));
        Budget {
            left: Cell::new(left),
        }
    }

    /// Takes what a merge of the two needs, where as much is left.
    pub fn spend(&self, first: &Schema, second: &Schema) -> bool {
        let needed = size_of(first).saturating_add(size_of(second));
        let left = self.left.get();
        if left < needed {
            return false;
        }
        self.left.set(left.wrapping_sub(needed));
        true
    }
}
