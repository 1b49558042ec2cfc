//! The forms of attributes.

/// Of which half of reading and writing a value is.
#[derive(Clone, Copy, PartialEq, Eq)]
pub enum Half {
    /// Of both, or of neither alone.
    Whole,
    Serialize,
    Deserialize,
}

/// What an attribute takes and does (serde.rs, container, variant and field attributes).
#[derive(Clone, Copy, PartialEq, Eq)]
pub enum Row {
    /// Two names, each of which is set.
    Names,
    /// Two names; of the second there may be many, all of which are read.
    ManyNames,
    /// One more name that is read.
    Alias,
    /// Two rules for names.
    Rules,
    /// Two rules for the names of fields, on an enum.
    FieldsRules,
    /// Nothing; it is set.
    Flag,
    /// Nothing; it is set on an enum.
    EnumFlag,
    /// Nothing; both halves of skipping are set.
    Skip,
    /// Nothing or the path of a function, on a struct with fields.
    ContainerDefault,
    /// Nothing or the path of a function.
    FieldDefault,
    /// Predicates for both halves.
    Bounds,
    /// A text, on an enum or a struct with named fields.
    Tag,
    /// A text, on an enum.
    Content,
    /// A text.
    Text,
    /// A type.
    Ty,
    /// A path; `Self` stands for the item.
    Remote,
    /// A path.
    Path,
    /// The path of a function.
    Function,
    /// The path of a module with two functions.
    With,
    /// Nothing or lifetimes, on a newtype variant.
    VariantBorrow,
    /// Nothing or lifetimes.
    FieldBorrow,
}
