//! Spaces of entries: the types that are written for entries, which entries use which by value, what they lead on to, and the identifier of a rest.
#![tactic(auto)]

mod leads;
mod lookup;
mod rest;
mod types;
mod used;

pub use leads::{ends_in_phantom, nexts};
pub use lookup::{entry_of, leads_to_option};
pub use rest::rest_name;
pub use types::{type_at, types_at};
pub use used::uses;
