//! Containers read from items, and their ten checks.
#![tactic(auto)]

mod all_fields;
mod checks;
mod container;
mod fields;
mod getters;
mod items;
mod laws;
mod variants;

pub use all_fields::AllFields;
pub use checks::check;
pub use container::{Container, Data, Field, Variant};
pub use container_defs::Style;
pub use laws::containers_read_alike;
