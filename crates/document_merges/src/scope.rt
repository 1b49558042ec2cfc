//! What merges of rows go by.
use merged_rows::{Budget, Start};
use schema_tree::Document;
use std::alloc::Global;

/// The document, how many steps a walk may have, where the tree begins, and how much may still be merged.
#[derive(Clone, Copy)]
pub(crate) struct Scope<'d, 's> {
    pub alloc: Global,
    pub document: &'d Document,
    pub depth: u32,
    pub start: &'s Start,
    pub budget: &'s Budget,
}
