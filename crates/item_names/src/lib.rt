//! The names of items, and the types that name no others.
#![tactic(auto)]

mod entered;
mod known_types;

pub use entered::ItemNames;
