//! The row of whole numbers: the type that bounds and a format choose.
#![tactic(auto)]

mod bounds;
mod choice;
mod integer;
mod kinds;
mod within;

pub use integer::integer_finding;
pub use within::is_bounded;
