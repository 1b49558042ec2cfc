//! Places by their steps.
use schema_tree::Location;
use std::alloc::{AllocError, Global};

/// The place that the steps, with spaces between them, lead to; no step stands for the root.
pub fn place(alloc: Global, steps: &str) -> Result<Location, AllocError> {
    let mut at = Location::root(alloc);
    if !steps.is_empty() {
        for step in steps.split(' ') {
            at = at.child(alloc, step)?;
        }
    }
    Ok(at)
}

/// The text of that place, by way of a copy.
pub fn place_text(alloc: Global, steps: &str) -> Result<String, AllocError> {
    let copy = place(alloc, steps)?.try_clone(alloc)?;
    copy.text(alloc)
}
