//! Names that are good, and names that are given one after another.
#![tactic(auto)]

mod given;
mod kept;

pub use given::GivenNames;
pub use kept::{is_bound_name, is_good_name, is_item_name};
