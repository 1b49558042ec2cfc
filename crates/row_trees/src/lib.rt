//! The parts of a row, in the order of conversion, and the tree of a row, made of the trees of its parts.
#![tactic(auto)]

mod bodies;
mod build;
mod lists;
mod parts;
mod supply;
mod variants;

pub use build::row_tree;
pub use parts::parts_of_row;
