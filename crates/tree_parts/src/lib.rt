//! Trees of entries made of rows, one step at a time: what is made of parts that are converted already.
#![tactic(auto)]

mod build;
mod contents;
mod items;
mod leaf;
mod lists;
mod reference;
mod texts;

pub use build::{
    as_option, atom, enum_tree, label, map_tree, newtype, nullable, one, pattern_keys, struct_tree,
    tuple_tree,
};
pub use contents::{content, is_closed_struct};
pub use items::as_item;
pub use leaf::{as_text, leaf_tree};
pub use lists::{alike_places, outside, with_field, with_place, with_variant};
pub use reference::target_named;
pub use texts::{asked_patterns, meets_texts};
