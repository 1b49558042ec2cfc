//! The parts of a schema that hold no schema. A part is there where one of its keywords stands.

ghost use Rattle.std.specs.Prelude.{◌≡◌, [], IfOk, option_map, map, string_bytes, unwrap_or};
ghost use Rattle.schema_defs.specs.Read.{any_stands, numbers_of, plain_of, texts_of};
ghost use Rattle.schema_types.specs.View.{numbers_view, texts_view};
ghost use Rattle.schema_reading.specs.Reading.{looked_up};
ghost use Rattle.schema_reading.specs.Parts.{plain_view};

use crate::keyword::{integer_at, member, multiple_at, size_at, text_at, value_at};
use crate::list::{patterns_at, types_at, values_at};
use schema_types::{NumberValidation, StringValidation, Types};
use serde_json::Value;
use serde_json::value::Map;
use std::alloc::{AllocError, Global};

/// What a schema's keywords that hold no schema are read as.
#[derive(Drop)]
pub(crate) struct Plain {
    pub(crate) title: Option<String>,
    pub(crate) description: Option<String>,
    pub(crate) default: Option<Value>,
    pub(crate) const_value: Option<Value>,
    pub(crate) types: Option<Types>,
    pub(crate) format: Option<String>,
    pub(crate) enum_values: Option<Vec<Value>>,
    pub(crate) number: Option<NumberValidation>,
    pub(crate) string: Option<StringValidation>,
    pub(crate) reference: Option<String>,
}

const NUMBER_WORDS: [&str; 5] = [
    "multipleOf",
    "maximum",
    "exclusiveMaximum",
    "minimum",
    "exclusiveMinimum",
];

const TEXT_WORDS: [&str; 3] = ["maxLength", "minLength", "pattern"];

/// Whether one of the keywords stands.
pub(crate) fn stands(members: &Map<String, Value>, keywords: &[&str]) -> bool
    ensures { result ≡ any_stands (map (λ k. k.now) keywords.now) (looked_up members.now.entries) }
{
    for keyword in keywords {
        if member(members, keyword).is_some() {
            return true;
        }
    }
    false
}

/// The keywords of numbers.
fn numbers(members: &Map<String, Value>) -> Option<Option<NumberValidation>>
    ensures { option_map (option_map numbers_view) result ≡ numbers_of (looked_up members.now.entries) }
{
    if !stands(members, &NUMBER_WORDS) {
        return Some(None);
    }
    let Some(multiple_of) = multiple_at(members, "multipleOf") else {
        return None;
    };
    let Some(maximum) = integer_at(members, "maximum") else {
        return None;
    };
    let Some(exclusive_maximum) = integer_at(members, "exclusiveMaximum") else {
        return None;
    };
    let Some(minimum) = integer_at(members, "minimum") else {
        return None;
    };
    let Some(exclusive_minimum) = integer_at(members, "exclusiveMinimum") else {
        return None;
    };
    Some(Some(NumberValidation {
        multiple_of,
        maximum,
        exclusive_maximum,
        minimum,
        exclusive_minimum,
    }))
}

/// The keywords of texts.
fn texts(
    alloc: Global,
    members: &Map<String, Value>,
) -> Result<Option<Option<StringValidation>>, AllocError>
    ensures { IfOk result (λ o. option_map (option_map texts_view) o ≡ texts_of (looked_up members.now.entries)) }
{
    if !stands(members, &TEXT_WORDS) {
        return Ok(Some(None));
    }
    let Some(max_length) = size_at(members, "maxLength") else {
        return Ok(None);
    };
    let Some(min_length) = size_at(members, "minLength") else {
        return Ok(None);
    };
    let Some(patterns) = patterns_at(alloc, members, "pattern")? else {
        return Ok(None);
    };
    Ok(Some(Some(StringValidation {
        max_length,
        min_length,
        patterns: or_none(alloc, patterns),
    })))
}

fn or_none(alloc: Global, texts: Option<Vec<String>>) -> Vec<String>
    ensures { map string_bytes result.items ≡ unwrap_or (option_map (λ v. map string_bytes v.items) texts) [] }
{
    match texts {
        Some(texts) => texts,
        None => Vec::new(alloc),
    }
}

/// The keywords that hold no schema, those of lists and of objects aside.
pub(crate) fn plain_keywords(
    alloc: Global,
    members: &Map<String, Value>,
) -> Result<Option<Plain>, AllocError>
    ensures { IfOk result (λ o. option_map plain_view o ≡ plain_of (looked_up members.now.entries)) }
{
    let Some(title) = text_at(alloc, members, "title")? else {
        return Ok(None);
    };
    let Some(description) = text_at(alloc, members, "description")? else {
        return Ok(None);
    };
    let Some(default) = value_at(members, "default")? else {
        return Ok(None);
    };
    let Some(const_value) = value_at(members, "const")? else {
        return Ok(None);
    };
    let Some(types) = types_at(alloc, members, "type")? else {
        return Ok(None);
    };
    let Some(format) = text_at(alloc, members, "format")? else {
        return Ok(None);
    };
    let Some(enum_values) = values_at(alloc, members, "enum")? else {
        return Ok(None);
    };
    let Some(number) = numbers(members) else {
        return Ok(None);
    };
    let Some(string) = texts(alloc, members)? else {
        return Ok(None);
    };
    let Some(reference) = text_at(alloc, members, "$ref")? else {
        return Ok(None);
    };
    Ok(Some(Plain {
        title,
        description,
        default,
        const_value,
        types,
        format,
        enum_values,
        number,
        string,
        reference,
    }))
}
