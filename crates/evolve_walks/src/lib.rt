//! The walk of the evolution checker over pairs of places: depth first, each once, up to the first that breaks a rule.
#![tactic(auto)]

mod entered;
mod keys;
mod same;
mod seen;
mod walk;
mod way;

pub use walk::{Walked, walk_from};
