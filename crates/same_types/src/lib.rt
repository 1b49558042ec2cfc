//! Whether two types are the same.
#![tactic(auto)]

mod leaf;
mod same;

pub use same::is_same;
