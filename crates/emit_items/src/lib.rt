//! The items of a space of entries, as syntax trees, and the stated defaults that they have.
#![tactic(auto)]

mod fields;
mod items;

pub use items::item_of;
