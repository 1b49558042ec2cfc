//! Whether two schemas are alike as merges ask it, over the schemas that the program holds. Nothing here takes memory.
#![tactic(auto)]

mod absent;
pub mod examples;
mod look;
mod plain;

pub use absent::{drops_siblings, is_unconstrained, nothing_beside};
pub use look::{roughly, same_schemas, wholly};
