//! The way to a pair of places that is reached, as places in the values that the old table writes. The definitions stand in specs/.
#![tactic(auto)]

pub mod examples;
pub mod laws;
