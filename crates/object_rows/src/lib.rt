//! The rows of objects.
#![tactic(auto)]

mod fields;
mod maps;
mod members;
mod object;

pub use fields::{field_state, may_be_null};
pub use members::is_required;
pub use object::object_finding;
