//! Fields: names, types, and what they get where they are missing.
use crate::value_type::ValueType;

/// Named fields, unnamed fields other than one, one unnamed field, none.
#[derive(Clone, Copy, PartialEq, Eq)]
pub enum Style {
    Struct,
    Tuple,
    Newtype,
    Unit,
}

/// What a missing field gets: nothing, its type's own default, or a place in the table of defaults.
#[derive(Clone, Copy)]
pub enum FieldDefault {
    Nothing,
    Own,
    Stated(u32),
}

/// How a present field is read: by its type; as what its option holds; by its type, but never missing.
#[derive(Clone, Copy)]
pub enum Helper {
    Nothing,
    Inner,
    Whole,
}

/// A field. Its deserialize names stand in order; `skip` says that an empty value isn't written, and `is_rest` that it takes
/// what no field names.
#[derive(Drop)]
pub struct Field {
    pub has_name: bool,
    pub serialize_name: String,
    pub deserialize_names: Vec<String>,
    pub field_type: ValueType,
    pub default: FieldDefault,
    pub helper: Helper,
    pub skip: bool,
    pub is_rest: bool,
}
