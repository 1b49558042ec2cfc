//! The judge of texts that searches with `regex`.
#![tactic(auto)]

pub mod examples;
mod judge;
mod search;

pub use judge::{RegexTexts, regex_texts_are_lawful};
