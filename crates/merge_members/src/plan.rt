//! What is left to merge of two sides' keywords of members.
use merge_leaves::MergedSizes;
use schema_types::{ObjectValidation, Schema};

/// What binds a name: one schema, or two that are merged, where never is `false`.
#[derive(Drop)]
pub enum Bound {
    Alone(Schema),
    Both(Schema, Schema),
}

/// A name, whether it is required, and whether a note is due where it is left out.
#[derive(Drop)]
pub struct Entry {
    pub name: String,
    pub is_needed: bool,
    pub is_unsaid: bool,
    pub bound: Bound,
}

/// What binds the names without a property: nothing or one schema, or two that are merged, where never is `false`.
#[derive(Drop)]
pub enum RestPlan {
    Rest(Option<Schema>),
    Rests(Schema, Schema),
}

/// What stands around the merged properties: the sizes of both sides. `is_object` says that the merged type is object, `is_dropped` that keywords of names by
/// pattern are dropped.
#[derive(Drop)]
pub struct Frame {
    pub sizes: MergedSizes,
    pub others: MergedSizes,
    pub is_object: bool,
    pub is_dropped: bool,
}

/// The names of both sides, in their order, with what binds each, and what binds the rest.
#[derive(Drop)]
pub struct Members {
    pub rest: RestPlan,
    pub entries: Vec<Entry>,
    pub frame: Frame,
}

/// What is left to merge: nothing, or the members of both sides.
#[derive(Drop)]
pub enum MemberPlan {
    Told(Option<ObjectValidation>),
    Named(Members),
}
