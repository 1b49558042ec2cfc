//! What the conversion of schemas speaks of: documents read from JSON values, places in them, faults, judges of texts and the
//! conversion table.
#![tactic(auto)]

mod document;
mod fault;
mod guarded;
mod name;
mod number;
mod print;
mod wide;

pub use conversion_table::{Constraint, Conversions, Rule};
pub use fault::{Fault, InvalidKind, UnsupportedKind};
pub use guarded::Document;
pub use json_value::is_whole;
pub use name::is_kept_name;
pub use number::{holds_i64_alone, i64_alone_has_no_float};
pub use print::json_string;
pub use schema_defs::{Format, InstanceType, Setting};
pub use schema_texts::{
    FailingTexts, PlainTexts, TextFault, Texts, failing_texts_are_lawful, plain_texts_are_lawful,
};
pub use schema_types::{
    ArrayValidation, Items, Location, Names, NumberValidation, ObjectValidation, Schema,
    SchemaObject, StringValidation, Subschemas, Types, Walk, value_validate,
};
pub use wide::{check_values, wide_place, wide_places_are_exact};
