//! Lines that name an item.
#![tactic(auto)]

mod line;

pub use line::item_line;
