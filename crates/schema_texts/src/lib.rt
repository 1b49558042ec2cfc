//! Judges of texts, by patterns and by formats: what a judge is, a plain one over a table of patterns, and one that fails
//! at given calls. The formats are read as their definitions say, and identifiers are parsed by crate `uuid`.
#![tactic(auto)]

mod address;
mod calendar;
pub mod examples;
mod failing;
mod format;
mod judge;
mod keywords;
mod pieces;
mod plain;
mod schedule;

pub use failing::{FailingTexts, failing_texts_are_lawful};
pub use format::has_format;
pub use judge::{TextFault, Texts};
pub use keywords::{count_characters, format_named, has_each, is_within};
pub use plain::{PlainTexts, plain_texts_are_lawful};
