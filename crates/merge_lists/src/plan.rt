//! What is left to merge of two sides' keywords of lists, once their sizes and `contains` are merged.
use merge_leaves::ListSizes;
use schema_types::{ArrayValidation, Schema};

/// Two schemas that are merged.
#[derive(Drop)]
pub struct Pair {
    pub first: Schema,
    pub second: Schema,
}

/// What stands around the merged items. `is_array` says that the merged type is array.
#[derive(Drop)]
pub struct Around {
    pub contains: Option<Box<Schema>>,
    pub sizes: ListSizes,
    pub is_array: bool,
}

/// Schemas that are merged place by place, and those that bind what comes after. `is_placed` says that both sides have schemas by place.
#[derive(Drop)]
pub struct Places {
    pub pairs: Vec<Pair>,
    pub after: Pair,
    pub is_placed: bool,
    pub around: Around,
}

/// What is left to merge: nothing, one schema for each item, or schemas by place.
#[derive(Drop)]
pub enum ListPlan {
    Told(Option<ArrayValidation>),
    Each(Pair, Around),
    ByPlace(Places),
}
