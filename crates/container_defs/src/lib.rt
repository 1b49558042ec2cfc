//! Containers, as definitions: what items and their attributes say to a derive, what is told of them, and what the reader of
//! values makes of them. The definitions stand in specs/; here are the styles, worked examples and laws.
#![tactic(auto)]

pub mod examples;
pub mod laws;
mod style;

pub use style::Style;
