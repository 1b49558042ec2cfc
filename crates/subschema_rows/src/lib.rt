//! The rows of `allOf`, `anyOf`, `oneOf` and `not`.
#![tactic(auto)]

mod lists;
mod subschemas;

pub use subschemas::subschema_finding;
