//! Examples of types: the value that is made in the fewest rounds in which a type is built, or why there is none.
#![tactic(auto)]

mod asking;
mod bodies;
mod choosing;
mod counted;
mod counting;
mod errors;
mod given;
mod leaves;
mod making;
mod nodes;
mod outside;
mod pieces;
mod rounds;
mod types;

pub use asking::table_example;
pub use errors::ExampleError;
pub use making::MOST_NODES;
