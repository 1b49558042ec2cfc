//! The models of items, by which JSON values are read and written, and what values become once they are read.
#![tactic(auto)]

mod container;
mod containers;
mod entering;
mod field;
mod fields;
pub mod laws;
mod typed;
mod value_type;
mod variant;
mod variants;

pub use container::{Body, Container, Tag};
pub use containers::Containers;
pub use field::{Field, FieldDefault, Helper, Style};
pub use fields::Fields;
pub use typed::Typed;
pub use value_type::ValueType;
pub use variant::Variant;
pub use variants::Variants;
