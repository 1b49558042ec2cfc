//! What is emitted for a space of entries: items with serde attributes, the table of conversions, and the type of one entry.
#![tactic(auto)]

mod emitting;

pub use emitting::{Emission, emit};
