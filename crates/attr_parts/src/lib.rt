//! What the readers of serde attributes are made of: diagnostics and their context, names, rules, and questions about types.
#![tactic(auto)]

mod ctxt;
mod derive;
mod kind;
mod laws;
mod lifetimes;
mod name;
mod place;
mod rename;
mod symbol;
mod types;
mod values;

pub use ctxt::Ctxt;
pub use derive::Derive;
pub use kind::{DiagKind, Diagnostic};
pub use laws::{
    names_are_read, names_equal_by_value, names_ordered_by_value, none_is_unit, or_is_associative,
    ungrouped_is_no_group, ungrouped_stays,
};
pub use lifetimes::collect_lifetimes;
pub use name::{MultiName, Name};
pub use place::{place_of_field, place_of_item, place_of_path, place_of_type, place_of_variant};
pub use rename::{NoCase, ParseError, RenameAllRules, RenameRule, Renamer};
pub use symbol::{
    ALIAS, BORROW, BOUND, CONTENT, CRATE, DEFAULT, DENY_UNKNOWN_FIELDS, DESERIALIZE,
    DESERIALIZE_WITH, EXPECTING, FIELD_IDENTIFIER, FLATTEN, FROM, GETTER, INTO, NON_EXHAUSTIVE,
    OTHER, REMOTE, RENAME, RENAME_ALL, RENAME_ALL_FIELDS, REPR, SERDE, SERIALIZE, SERIALIZE_WITH,
    SKIP, SKIP_DESERIALIZING, SKIP_SERIALIZING, SKIP_SERIALIZING_IF, TAG, TRANSPARENT, TRY_FROM,
    UNTAGGED, VARIANT_IDENTIFIER, WITH,
};
pub use tag_kinds::TagType;
pub use types::{Elem, is_cow, is_implicitly_borrowed, ungroup};
pub use values::{Default, Identifier};
