//! Why no description is examined.
use model_describe::DescribeError;
use schema_tree::Fault;

/// Why no description of items is examined.
#[derive(Drop)]
pub enum RedescribeError {
    /// Why there is none.
    Describe(DescribeError),
    /// Why it isn't examined.
    Examine(Fault),
}
