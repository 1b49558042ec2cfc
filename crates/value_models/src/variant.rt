//! Variants of enums.
use crate::field::Style;
use crate::fields::Fields;

/// A variant of an enum.
#[derive(Drop)]
pub struct Variant {
    pub serialize_name: String,
    pub deserialize_names: Vec<String>,
    pub style: Style,
    pub fields: Fields,
}
