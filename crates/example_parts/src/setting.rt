//! What examples are made by.
use conversion_table::Conversions;
use std::alloc::Global;
use value_models::Containers;

/// What examples are made by: the models of items, and the rules of those that have one.
#[derive(Clone, Copy)]
pub struct Setting<'a> {
    pub alloc: Global,
    pub containers: &'a Containers,
    pub conversions: &'a Conversions,
}
