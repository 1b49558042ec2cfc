//! Places in a document or a value, and walks of such places, as the program holds them.
#![tactic(auto)]

mod location;

pub use location::{Location, Walk};
