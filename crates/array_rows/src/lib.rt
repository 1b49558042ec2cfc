//! The rows of arrays.
#![tactic(auto)]

mod array;
mod places;

pub use array::array_finding;
