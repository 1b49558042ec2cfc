//! Why items have no description.

/// Why items have no description.
#[derive(Drop)]
pub enum DescribeError {
    /// Memory ran out.
    Memory,
    /// The items with the root are no plain table: the place of the first item that keeps them from it, or none where the
    /// root alone does.
    NotPlain { item: Option<u32> },
}
