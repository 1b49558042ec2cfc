//! The members of an object, sorted by the fields that take them.
use crate::members::Member;
use crate::slots::Slot;
use value_models::Fields;

/// Members, those of each field at its place, and those that no field names.
#[derive(Drop)]
pub struct Sorted<'a> {
    pub(crate) fields: &'a Fields,
    pub(crate) members: &'a [Member<'a>],
    pub(crate) slots: Vec<Slot<'a>>,
    pub(crate) unnamed: Vec<Member<'a>>,
}
