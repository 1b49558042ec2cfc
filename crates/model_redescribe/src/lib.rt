//! Items described, and their descriptions examined.
#![tactic(auto)]

mod errors;
pub mod laws;
mod redescribing;

pub use errors::RedescribeError;
pub use redescribing::redescribe;
