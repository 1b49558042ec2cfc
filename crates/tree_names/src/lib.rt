//! The names of a table of trees: of items, and within each of fields and variants.
#![tactic(auto)]

mod identify;
mod labels;
mod table;
mod walk;

pub use table::{NamedTargets, named_table, named_targets};
pub use walk::named_tree;
