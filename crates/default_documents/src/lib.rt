//! The stated defaults of a document's emitted items are sound where its conversion asked each.
#![tactic(auto)]

pub mod laws;
