//! Which items a type comes to: those that it names, those that their bodies name, and so on.
#![tactic(auto)]

mod coming;
mod places;
mod reached;
mod uses;

pub use coming::come;
pub use places::Places;
