//! A JSON value read as a schema document (JSON Schema Draft 7, in the profile that is read). The definitions stand in the
//! crate schema_defs.
#![tactic(auto)]

mod keyword;
mod list;
mod part;
mod reading;
mod schema;

pub use reading::document;
