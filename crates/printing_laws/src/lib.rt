//! Laws of printing: what a tree is printed as some text has, where some text has each of the tree's parts; so the text of a
//! printed tree of parsed form is parsed as that tree, with nothing asked of its printing as a whole. Each law is the contract
//! of a function that does nothing.
#![tactic(auto)]

mod examples;
mod printings;
mod whole;

pub use examples::parts_examples;
pub use printings::printings_are_of_text;
pub use whole::{
    whole_bounds_are_spelled, whole_expr_paths_are_parsed, whole_lifetimes_are_parsed,
    whole_paths_are_parsed, whole_predicates_are_parsed, whole_types_are_parsed,
};
