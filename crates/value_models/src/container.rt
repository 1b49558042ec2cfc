//! Containers: the names, types and representation by which items are read and written.
use crate::field::Style;
use crate::fields::Fields;
use crate::variants::Variants;

/// How a value says which variant it is (serde.rs/enum-representations).
#[derive(Drop)]
pub enum Tag {
    External,
    /// The name of the tag.
    Internal(String),
    /// The name of the tag, and that of the contents.
    Adjacent(String, String),
    Untagged,
}

/// What an item holds.
#[derive(Drop)]
pub enum Body {
    Struct(Style, Fields),
    Enum(Tag, Variants),
}

/// An item: `closed` says that unknown members are refused, `try_from` that the rule of its name binds.
#[derive(Drop)]
pub struct Container {
    pub name: String,
    pub transparent: bool,
    pub try_from: bool,
    pub closed: bool,
    pub body: Body,
}
