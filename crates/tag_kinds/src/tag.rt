//! The representations of enums.

/// How the variant of an enum is told in what is written (serde.rs, enum representations).
#[derive(Drop)]
pub enum TagType {
    /// The variant's name outside, as the default.
    External,
    /// The variant's name in that member of the struct.
    Internal { tag: String },
    /// The variant's name in one member, and the rest in another.
    Adjacent { tag: String, content: String },
    /// Nothing tells the variant.
    None,
}
