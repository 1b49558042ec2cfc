//! The rows by types and references: one function a line of the table, which answers the finding where the line fits.
#![tactic(auto)]

mod line;
mod lists;
mod null;
mod references;
mod types;

pub use line::hold;
pub use lists::{every_type_line, one_of_types_line, only_type_line};
pub use null::{beside_null_line, null_line};
pub use references::{reference_line, reference_of_type_line, reference_with_others_line};
pub use types::{allowed_line, any_line, conditional_line, constant_line, several_line};
