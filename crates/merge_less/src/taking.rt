//! What is left to take away once both sides are met.
use merge_members::Entry;
use schema_types::{Schema, SchemaObject};

/// A list that is merged: its first schema and the others. Of an empty list the first is `true`.
#[derive(Drop)]
pub struct Listed {
    pub first: Schema,
    pub rest: Vec<Schema>,
}

/// An object from which another is taken away: the names of both, the object with its listed values, and what stands in `anyOf`, `not`
/// and `allOf` of the other. Where one side has no keywords of members, there are no names.
#[derive(Drop)]
pub struct Taken {
    pub entries: Vec<Entry>,
    pub object: SchemaObject,
    pub any: Vec<Schema>,
    pub none: Vec<Schema>,
    pub all: Option<Listed>,
}

/// What is left: nothing, or the parts of two objects.
#[derive(Drop)]
pub enum Taking {
    Told(Schema),
    Objects(Taken),
}
