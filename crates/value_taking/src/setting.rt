//! What is gone by.
use conversion_table::Conversions;
use std::alloc::Global;
use value_models::Containers;

/// The tables, and how many levels of values and items may still stand in one another.
#[derive(Clone, Copy)]
pub(crate) struct Setting<'a> {
    pub(crate) alloc: Global,
    pub(crate) containers: &'a Containers,
    pub(crate) conversions: &'a Conversions,
    pub(crate) levels: usize,
}
