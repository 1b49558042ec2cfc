//! Names with their places, kept in order, in which a name is looked up by few comparisons.
#![tactic(auto)]

pub mod examples;
pub mod laws;
mod steps;
mod table;

pub use steps::{StepLedger, Steps, Tokens};
pub use table::NameTable;
