//! The reader of serde's attributes: what is said of containers, variants and fields, and what is wrong with that, with the diagnostics and their context, names
//! and the rules that change them.
#![tactic(auto)]

mod container;
mod field;
mod laws;
mod name;
mod names;
mod rename;
mod tag;
mod variant;

pub use attr_parts::{
    ALIAS, BORROW, BOUND, CONTENT, CRATE, Ctxt, DEFAULT, DENY_UNKNOWN_FIELDS, DESERIALIZE,
    DESERIALIZE_WITH, Default, Derive, DiagKind, Diagnostic, EXPECTING, Elem, FIELD_IDENTIFIER,
    FLATTEN, FROM, GETTER, INTO, Identifier, MultiName, NON_EXHAUSTIVE, Name, NoCase, OTHER,
    ParseError, REMOTE, RENAME, RENAME_ALL, RENAME_ALL_FIELDS, REPR, RenameAllRules, RenameRule,
    Renamer, SERDE, SERIALIZE, SERIALIZE_WITH, SKIP, SKIP_DESERIALIZING, SKIP_SERIALIZING,
    SKIP_SERIALIZING_IF, TAG, TRANSPARENT, TRY_FROM, TagType, UNTAGGED, VARIANT_IDENTIFIER, WITH,
    collect_lifetimes, is_cow, is_implicitly_borrowed, place_of_field, place_of_item,
    place_of_path, place_of_type, place_of_variant, ungroup,
};
pub use laws::{containers_read_alike, fields_read_alike, variants_read_alike};

/// The three readers, under the names that serde's own have.
pub mod attr {
    pub use crate::container::Container;
    pub use crate::field::Field;
    pub use crate::variant::Variant;
}
