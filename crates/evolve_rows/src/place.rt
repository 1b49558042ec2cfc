//! Places of a table.
use conversion_table::Conversions;
use std::alloc::Global;
use value_kinds::ModelTable;
use value_models::ValueType;

/// Items with their conversions.
#[derive(Clone, Copy)]
pub struct Table<'a> {
    pub models: &'a ModelTable,
    pub conversions: &'a Conversions,
}

/// A place that is read: a type, or the contents of a variant by the name of its item and its number.
#[derive(Clone, Copy)]
pub enum Place<'a> {
    Of(&'a ValueType),
    Variant(&'a str, u32),
    /// A place that nothing is read at.
    Nowhere,
}

/// What a walk has at hand: memory, the old table, and the new one.
#[derive(Clone, Copy)]
pub struct Tables<'a> {
    pub alloc: Global,
    pub old: Table<'a>,
    pub new: Table<'a>,
}
