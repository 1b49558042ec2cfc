//! Parsers over token trees: which tokens spell a tree, and the tree.
#![tactic(auto)]

mod fault;
mod front;
mod gives;
mod laws;
mod lifetimes;
mod made;
mod predicates;
mod reader;
mod tokens;
mod whole;

pub use fault::ParseFault;
pub use laws::{
    exactly_what_is_not_spelled_is_refused, exactly_what_is_printed_in_front_is_read,
    exactly_what_is_spelled_is_read, lifetimes_are_read_as_spelled, lifetimes_are_spelled_once,
    spans_are_passed_over, trees_are_spelled_once, trees_are_spelled_once_aside,
    what_is_printed_is_read, what_is_printed_is_spelled, what_is_read_is_printed,
    worked_types_are_read, worked_types_are_spelled,
};
pub use lifetimes::read_lifetimes;
pub use whole::{read_where, read_whole_expr_path, read_whole_path, read_whole_type};
