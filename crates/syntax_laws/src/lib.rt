//! The parsers of texts, which answer the tree that the text spells, and laws of them: which predicates tokens spell, which trees
//! texts spell, and that the text of a printed tree is parsed as that tree. Each law is the contract of an empty function.
#![tactic(auto)]

mod answers;
mod predicates;
mod round_trip;
mod texts;

pub use answers::{parse_expr_path, parse_lifetimes, parse_path, parse_type, parse_where};
pub use predicates::{
    exactly_spelled_predicates_are_read, exactly_unspelled_predicates_are_refused,
    predicates_are_spelled_once, worked_predicates_are_spelled,
};
pub use round_trip::{
    printed_expr_paths_are_parsed, printed_lifetimes_are_parsed, printed_paths_are_parsed,
    printed_predicates_are_parsed, printed_types_are_parsed,
};
pub use texts::{
    errors_stand_at_the_literal, expr_paths_are_answered_exactly, kinds_are_told_exactly,
    lifetimes_are_answered_exactly, paths_are_answered_exactly, predicates_are_answered_exactly,
    texts_are_spelled_once, types_are_answered_exactly, worked_texts_are_spelled,
};
