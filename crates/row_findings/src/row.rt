//! Rows.
use crate::finding::Cause;
use crate::given::GivenValues;
use crate::leaf::Leaf;
use crate::part::{FieldRow, OutsideRow, Part, VariantRow};
use schema_types::Schema;
use std::collections::BTreeMap;

/// Whether an enum is closed: by its shape, or where a struct in it is closed.
#[derive(Clone, Copy)]
pub enum Closing {
    ByShape(bool),
    ByContents,
}

/// How the variant of an enum is told.
#[derive(Clone, Copy)]
pub enum TagRow<'d> {
    External,
    Internal(&'d str),
    Adjacent(&'d str, &'d str),
    Untagged,
}

/// What the values of a newtype must meet beyond its type: to be listed, or not to be.
#[derive(Clone, Copy)]
pub enum RowRule<'d> {
    Allow(GivenValues<'d>),
    Deny(GivenValues<'d>),
}

/// What is made of a schema.
#[derive(Drop)]
pub enum Row<'d> {
    Leaf(Leaf<'d>),
    /// What the reference leads to.
    Reference(&'d String),
    AsItIs(Part<'d>),
    Option(Part<'d>),
    Ruled(Part<'d>, RowRule<'d>),
    Vec(Part<'d>),
    Set(Part<'d>),
    /// So many of one part.
    Array(Part<'d>, u32),
    /// The places that are listed, and then so many of the one part.
    Tuple {
        listed: Vec<Part<'d>>,
        more: u32,
        rest: Part<'d>,
    },
    /// A map, by the part of its keys and that of its values.
    Map(Part<'d>, Part<'d>),
    /// A map whose keys have one of the patterns that stand for names there.
    PatternMap(&'d BTreeMap<String, Schema>, Part<'d>),
    Struct {
        closed: bool,
        fields: Vec<FieldRow<'d>>,
        outside: Option<OutsideRow<'d>>,
    },
    Enum {
        tag: TagRow<'d>,
        closing: Closing,
        variants: Vec<VariantRow<'d>>,
    },
    /// The merge of these.
    Merged(Vec<Part<'d>>),
    Refused(Cause),
}
