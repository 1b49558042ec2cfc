//! The table of conversion: its lines, and what the first of them that fits makes of a schema.
#![tactic(auto)]

mod line;
mod owners;
mod scalars;
mod subschema;
mod table;

pub use table::finding;
