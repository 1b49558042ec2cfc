//! Tables of trees as spaces of entries with ids.
#![tactic(auto)]

mod copies;
mod entering;
mod finish;
mod led;
mod table;
mod trees;

pub use led::{Led, led_to};
pub use table::{LedSpace, Planned, space_of, targets_space};
pub use trees::place_tree;
