//! What is converted in place of a schema whose row merges.
use crate::start::Start;
use schema_types::Schema;

/// A schema that a merge made or took over, and where it stands.
#[derive(Drop)]
pub struct Standing {
    pub start: Start,
    pub schema: Schema,
}
