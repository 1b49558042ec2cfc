//! What `explain` says of a fault by what stands at its place in the document.
#![tactic(auto)]

mod found;
mod lines;
mod stops;

pub use lines::push_place;
