//! Sets of JSON values, asked in time that grows with the logarithm of their number.
#![tactic(auto)]

mod key;
mod set;

pub use set::ValueSet;
