//! Whether a type reads a JSON value, where no default is read and no text is judged.
#![tactic(auto)]

mod fields;
mod leading;
mod no_texts;
mod scalars;
mod setting;
mod taking;

pub use fields::{may_be_missing, present_type};
pub use leading::leads_to_option;
pub use taking::takes;
