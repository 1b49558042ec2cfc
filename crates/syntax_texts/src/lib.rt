//! Paths, types, predicates and lifetimes in string literals.
#![tactic(auto)]

mod nesting;
mod texts;

pub use nesting::DEEPEST;
pub use texts::{parse_expr_path, parse_lifetimes, parse_path, parse_type, parse_where};
