//! Values that describe: containers as schemas, and a table of them as a document, written as JSON.
#![tactic(auto)]

mod contents;
mod entries;
mod enums;
mod items;
mod objects;
mod table;

pub use table::description_value;
