//! Entries, by the ids of their parts.
use crate::item::ItemEntry;
use schema_defs::Format;

/// What the paths of nonzero integers begin with, `::std::num::NonZeroU8` to `::std::num::NonZeroU64`.
pub const STD_NUM_NONZERO_PREFIX: &str = "::std::num::NonZero";

/// The number of an entry in its space.
#[derive(Clone, Copy, PartialEq, Eq, Hash)]
pub struct TypeId(pub u32);

/// The integer types of Rust that are used.
#[derive(Clone, Copy, PartialEq, Eq, Hash)]
pub enum IntName {
    I8,
    U8,
    I16,
    U16,
    I32,
    U32,
    I64,
    U64,
    NonZeroU8,
    NonZeroU16,
    NonZeroU32,
    NonZeroU64,
}

/// What a schema is converted to.
#[derive(Drop)]
pub enum TypeEntry {
    Bool,
    Integer(IntName),
    Text,
    /// A text of the format, read as what the format says.
    Native(Format),
    /// Any JSON value.
    Any,
    /// Null.
    Unit,
    Option(TypeId),
    Vec(TypeId),
    Set(TypeId),
    /// A map from keys to values.
    Map(TypeId, TypeId),
    Tuple(Vec<TypeId>),
    /// So many of one entry.
    Array(TypeId, u32),
    /// The item with that id.
    Reference(TypeId),
    Item(ItemEntry),
}
