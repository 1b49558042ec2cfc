//! Types of fields, as a reader of JSON values takes them: what a syntax type is one level deep, and the whole of it.
#![tactic(auto)]

mod build;
mod number;
mod path;
mod rows;
mod shape;

pub use build::value_type;
pub use number::{is_number, number_of};
pub use path::spells;
pub use rows::{Holder, Plain};
pub use shape::{Shape, shape_of};
