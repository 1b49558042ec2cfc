//! What every call of a merge reads.
use merge_steps::Budget;
use schema_types::Document;
use std::alloc::Global;

/// Whether two schemas are merged, or one is taken away from the other.
#[derive(Clone, Copy)]
pub(crate) enum How {
    Join,
    Less,
}

/// The document whose references lead to schemas, how many steps a walk may have, and how much may still be merged.
#[derive(Clone, Copy)]
pub(crate) struct Scope<'d> {
    pub alloc: Global,
    pub document: &'d Document,
    pub most: usize,
    pub budget: &'d Budget,
}
