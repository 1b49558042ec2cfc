//! Values that describe: types as schemas, written as JSON.
#![tactic(auto)]

mod forms;
mod types;

pub use forms::{list_value, of_kind, placed, size_value, text_value};
pub use types::{integer_format, type_value};
