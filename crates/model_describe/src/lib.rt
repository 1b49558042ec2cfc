//! Items described: the schema of exactly the values that they read.
#![tactic(auto)]

mod describing;
mod errors;
mod reading;
mod sizes;
mod table;

pub use describing::describe;
pub use errors::DescribeError;
