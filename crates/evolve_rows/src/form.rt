//! What is seen at a place.
use conversion_table::Rule;
use schema_defs::Format;
use value_models::{Field, ValueType, Variants};

/// The types of a tuple's places.
#[derive(Clone, Copy)]
pub enum Places<'a> {
    Types(&'a [ValueType]),
    /// The types of unnamed fields.
    Fields(&'a [Field]),
}

/// The integers from one to another.
#[derive(Clone, Copy)]
pub struct Range {
    pub least: i128,
    pub greatest: i128,
}

/// What is seen at a place, through boxes and newtypes without a rule.
#[derive(Clone, Copy)]
pub enum Form<'a> {
    Any,
    Unit,
    Boolean,
    Integer(Range),
    Text,
    Native(Format),
    Optional(&'a ValueType),
    /// A list, with or without repeats.
    List(&'a ValueType),
    Set(&'a ValueType),
    Tuple(Places<'a>),
    /// The type of the items, and their number.
    Array(&'a ValueType, u64),
    /// The type of the names, and that of the values.
    Map(&'a ValueType, &'a ValueType),
    Struct {
        closed: bool,
        fields: &'a [Field],
    },
    /// A newtype with the rule that its values meet, if there is one.
    Ruled(Option<&'a Rule>, &'a ValueType),
    /// Enums, by the name of their item.
    External {
        home: &'a str,
        closed: bool,
        variants: &'a Variants,
    },
    /// With the name of the tag.
    Internal {
        home: &'a str,
        closed: bool,
        tag: &'a str,
        variants: &'a Variants,
    },
    /// With the name of the tag, and that of the contents.
    Adjacent {
        home: &'a str,
        closed: bool,
        tag: &'a str,
        content: &'a str,
        variants: &'a Variants,
    },
    Untagged {
        home: &'a str,
        closed: bool,
        variants: &'a Variants,
    },
    Nothing,
}
