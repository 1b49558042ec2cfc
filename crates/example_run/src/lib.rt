//! The word `example`: a value that the items of a schema take, or that there is none.
#![tactic(auto)]

mod exemplifying;
pub mod laws;

pub use exemplifying::Exemplifying;
