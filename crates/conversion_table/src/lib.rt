//! The conversion table as the program holds it: what the values of an item must meet beyond its type, and the stated
//! defaults.
#![tactic(auto)]

mod conversions;

pub use conversions::{Constraint, Conversions, Rule};
