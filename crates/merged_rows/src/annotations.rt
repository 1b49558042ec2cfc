//! Annotations of a schema.
use serde_json::Value;

/// What says something of a schema and constrains nothing.
#[derive(Clone, Copy)]
pub struct Annotations<'d> {
    pub title: Option<&'d String>,
    pub description: Option<&'d String>,
    pub default: Option<&'d Value>,
}
