//! The keywords that are known, what each of them holds, and which of an object's keywords hold what they may not.

ghost use Rattle.std.specs.Prelude.{◌≡◌, option_map, filter, map};
ghost use Rattle.serde_json.specs.View.{view, members_view};
ghost use Rattle.json_value.specs.View.{value_of, members_of};
ghost use Rattle.schema_faults.specs.Keywords.{fits as value_fits, is_known_at};
ghost use Rattle.schema_faults.specs.Faults.{first, is_broken as is_row_broken};
ghost use Rattle.schema_faults.specs.Table.{row_of};

use crate::kind::{
    is_filled_list, is_flag, is_list, is_multiple, is_number, is_object, is_schema, is_size,
    is_text, lists_texts, names_types,
};
use crate::members::{has_distinct_names, member, shares_name};
use serde_json::Value;
use serde_json::value::Map;

/// What a keyword holds (JSON Schema Draft 7 validation, 6, 7, 9 and 10; core, 8.3).
#[derive(Clone, Copy, PartialEq, Eq)]
pub enum Holds {
    /// A text.
    Text,
    /// Any value.
    Anything,
    /// The name of a type, or a list of such names.
    TypeNames,
    /// A list of any values.
    Values,
    /// A number.
    Number,
    /// A number that is 1 or greater, or not whole.
    Multiple,
    /// A number from 0 to 2^32 - 1, or one that isn't whole.
    Size,
    /// A boolean.
    Flag,
    /// A list of texts.
    Texts,
    /// A schema.
    Schema,
    /// A list of one or more schemas.
    SomeSchemas,
    /// A list of schemas.
    Schemas,
    /// A schema, or a list of schemas.
    SchemaOrSchemas,
    /// Schemas by name.
    NamedSchemas,
    /// Schemas by name, under `$defs` of the root.
    Defs,
    /// Schemas by name, under `definitions` of the root; none of these names stands under `$defs` too.
    Definitions,
}

/// The keywords that are known, in the order of their bytes.
pub const KEYWORDS: [(&str, Holds); 35] = [
    ("$defs", Holds::Defs),
    ("$ref", Holds::Text),
    ("additionalItems", Holds::Schema),
    ("additionalProperties", Holds::Schema),
    ("allOf", Holds::SomeSchemas),
    ("anyOf", Holds::Schemas),
    ("const", Holds::Anything),
    ("contains", Holds::Schema),
    ("default", Holds::Anything),
    ("definitions", Holds::Definitions),
    ("description", Holds::Text),
    ("enum", Holds::Values),
    ("exclusiveMaximum", Holds::Number),
    ("exclusiveMinimum", Holds::Number),
    ("format", Holds::Text),
    ("items", Holds::SchemaOrSchemas),
    ("maxItems", Holds::Size),
    ("maxLength", Holds::Size),
    ("maxProperties", Holds::Size),
    ("maximum", Holds::Number),
    ("minItems", Holds::Size),
    ("minLength", Holds::Size),
    ("minProperties", Holds::Size),
    ("minimum", Holds::Number),
    ("multipleOf", Holds::Multiple),
    ("not", Holds::Schema),
    ("oneOf", Holds::Schemas),
    ("pattern", Holds::Text),
    ("patternProperties", Holds::NamedSchemas),
    ("properties", Holds::NamedSchemas),
    ("propertyNames", Holds::Schema),
    ("required", Holds::Texts),
    ("title", Holds::Text),
    ("type", Holds::TypeNames),
    ("uniqueItems", Holds::Flag),
];

/// Whether a keyword that holds this is known, at the root or elsewhere.
pub fn is_known(at_root: bool, holds: Holds) -> bool
    ensures { result ≡ is_known_at at_root holds }
{
    match holds {
        Holds::Defs | Holds::Definitions => at_root,
        _ => true,
    }
}

/// Whether the value may stand at a keyword that holds this, in the object with these members.
pub(crate) fn fits(owner: &Map<String, Value>, holds: Holds, value: &Value) -> bool
    ensures { result ≡ value_fits (members_of (members_view owner.now.entries)) holds (value_of (view value.now)) }
{
    match holds {
        Holds::Text => is_text(value),
        Holds::Anything => true,
        Holds::TypeNames => names_types(value),
        Holds::Values | Holds::Schemas => is_list(value),
        Holds::Number => is_number(value),
        Holds::Multiple => is_multiple(value),
        Holds::Size => is_size(value),
        Holds::Flag => is_flag(value),
        Holds::Texts => lists_texts(value),
        Holds::Schema => is_schema(value),
        Holds::SomeSchemas => is_filled_list(value),
        Holds::SchemaOrSchemas => is_schema(value) || is_list(value),
        Holds::NamedSchemas => is_object(value),
        Holds::Defs => has_distinct_names(value),
        Holds::Definitions => has_distinct_names(value) && !shares_name(owner, value),
    }
}

fn is_broken(at_root: bool, owner: &Map<String, Value>, keyword: &str, holds: Holds) -> bool
    ensures { result ≡ is_row_broken at_root (members_of (members_view owner.now.entries)) (keyword.now, holds) }
{
    match member(owner, keyword) {
        Some(value) => is_known(at_root, holds) && !fits(owner, holds, value),
        None => false,
    }
}

/// The first of these keywords that holds what it may not.
pub(crate) fn first_broken(
    at_root: bool,
    owner: &Map<String, Value>,
    rows: &'static [(&'static str, Holds)],
) -> Option<&'static str>
    ensures { option_map (λ k. k.now) result ≡ first (map (λ r. r.0) (filter (is_row_broken at_root (members_of (members_view owner.now.entries))) (map row_of rows.now))) }
{
    for (keyword, holds) in rows {
        if is_broken(at_root, owner, keyword, *holds) {
            return Some(*keyword);
        }
    }
    None
}
