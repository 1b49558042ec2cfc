//! Plain tables of containers: those that a schema document says exactly; and which item keeps a table from being plain.
#![tactic(auto)]

mod contents;
mod enums;
mod fields;
mod items;
mod leading;
mod names;
mod table;
mod types;

pub use table::why_not_plain;
