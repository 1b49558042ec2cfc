//! What the first row of the table of conversion that fits makes of one schema: the row, with the notes of the schema, the
//! patterns that are asked first, and the branches. Rows borrow the document's schemas, and make none anew.
#![tactic(auto)]

mod changed;
mod finding;
mod given;
mod leaf;
mod notes;
mod part;
mod row;
mod standing;
mod values;

pub use changed::{less_const, less_enum, less_reference, less_types, of_type};
pub use finding::{Branch, Cause, Finding, Note, NoteKind, Patterns, Way, noted, plainly, refused};
pub use given::{GivenTypes, GivenValues, Keywords, Source, keywords_of, no_keyword};
pub use leaf::Leaf;
pub use notes::{made, with_note};
pub use part::{
    FieldRow, FieldState, Keyword, OutsideRow, Part, PartKind, Steps, VariantBody, VariantRow,
    anything, part_under,
};
pub use row::{Closing, Row, RowRule, TagRow};
pub use standing::{
    has_conditional, has_one_type, has_type, is_bare, is_untyped, is_without_lists,
    is_without_named, is_without_same, no_others, no_ranges, only_type, same_type, type_among,
    type_beside_null,
};
pub use values::{ValueKind, all_of, any_of, is_left_out, is_null, lists_boolean, lists_value};
