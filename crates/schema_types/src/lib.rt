//! Schemas and documents (JSON Schema Draft 7, in the profile that is read) as the program holds them, with the places in
//! a document and the walks of such places.
#![tactic(auto)]

mod copy;
mod document;
pub mod laws;
mod object;
mod place;
mod reference;
mod same;
mod schema;
mod validate;

pub use copy::{copy_list_of_texts, copy_list_of_values, copy_names, copy_type_names};
pub use document::{Definition, Document, Names};
pub use locations::{Location, Walk};
pub use object::as_schema;
pub use reference::written_name;
pub use schema::{
    ArrayValidation, Items, NumberValidation, ObjectValidation, Schema, SchemaObject,
    StringValidation, Subschemas, Types,
};
pub use schema_defs::{InstanceType, Setting};
pub use validate::{has_types, is_among, is_constant, is_kind, value_validate};
