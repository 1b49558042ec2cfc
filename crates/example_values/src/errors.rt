//! Why there is no answer.

/// Why it isn't told whether a type has an example.
#[derive(Debug, Drop)]
pub enum ExampleError {
    /// Memory ran out.
    Memory,
    /// The type names a native type, or it comes to items of which one names a native type, or has to meet a rule with a
    /// pattern or a list of values that it doesn't allow: the place of the first such item, or None for the type itself.
    Outside { item: Option<u32> },
}
