//! Examples of modules of items: a small value that a type reads, or that there is none.
#![tactic(auto)]

mod making;

pub use example_values::{ExampleError, MOST_NODES};
pub use making::example;
