//! Whether a document is guarded: whether references at one value lead back to where they began.
#![tactic(auto)]

pub mod examples;
pub mod laws;
mod references;

pub use references::references_of;
