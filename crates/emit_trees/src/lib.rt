//! Emitted items as syntax trees: attributes, fields, variants and items, of parts that are given.
#![tactic(auto)]

mod carried;
mod fields;
mod items;
mod manner;
mod metas;

pub use carried::{Carried, serde_attributes};
pub use fields::{
    named_field, newtype_fields, rest_field, tuple_fields, unnamed_field, unnamed_fields,
};
pub use items::{enum_item, struct_item, variant};
pub use manner::{Empty, Manner, add_manner, held_ty};
pub use metas::{add_rename, field_metas, item_metas};
