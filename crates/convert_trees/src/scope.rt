//! What a conversion goes by.
use merged_rows::Start;
use schema_tree::Document;
use std::alloc::Global;

/// The document, the greatest number of steps and of places, and where the tree begins.
#[derive(Clone, Copy)]
pub struct Scope<'d, 's> {
    pub alloc: Global,
    pub document: &'d Document,
    pub depth: u32,
    pub start: &'s Start,
}
