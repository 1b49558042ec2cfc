//! The word `rust`: the items of a schema as one Rust module.
#![tactic(auto)]

pub mod laws;
mod printing;

pub use printing::RustPrinting;
