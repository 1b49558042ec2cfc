//! Maps: by any name, by names that keywords of texts choose, and by patterns.
ghost use Rattle.std.specs.Prelude.{◌≡◌, ◌&&◌, ◌||◌, IfOk, is_none, option_map};
ghost use Rattle.schema_defs.specs.Schema.{the_schema};
ghost use Rattle.schema_defs.specs.Texts.{Relations};
ghost use Rattle.schema_types.specs.View.{maybe_view, properties_view, schema_view};
ghost use Rattle.enum_defs.specs.Words.{has_type as has_type_of, without_same, without_lists, without_named};
ghost use Rattle.convert_defs.specs.Owners.{any_text as any_text_of, name_part as name_part_of, names_texts as names_texts_of, lists_texts as lists_texts_of, map_of, pattern_row as pattern_row_of};
ghost use Rattle.row_findings.specs.Given.{plain_view, same_view, lists_view, named_view, keywords_view, given_values_view};
ghost use Rattle.row_findings.specs.View.{part_view, row_view};

use row_findings::{
    Cause, GivenValues, Keyword, Keywords, Part, PartKind, Row, Source, Steps, ValueKind, all_of,
    has_type, is_without_lists, is_without_named, is_without_same, keywords_of, made, no_keyword,
    of_type, part_under,
};
use schema_types::{InstanceType, ObjectValidation, Schema};
use std::alloc::{AllocError, Global};
use std::collections::BTreeMap;

/// Any text.
pub fn any_text<'d>(alloc: Global) -> Result<Part<'d>, AllocError>
    ensures { IfOk result (λ p. part_view p ≡ any_text_of) }
{
    let part = made(alloc, of_type(&no_keyword(), InstanceType::Text))?;
    Ok(part)
}

fn lists_texts(values: Option<GivenValues<'_>>) -> bool
    ensures { result ≡ lists_texts_of (option_map given_values_view values.entry) }
{
    match values {
        Some(values) => all_of(values, ValueKind::Text),
        None => true,
    }
}

fn may_be_text(keywords: &Keywords<'_>) -> bool
    ensures { result ≡ (is_none (plain_view keywords.now).types || has_type_of InstanceType.Text (plain_view keywords.now).types) }
{
    keywords.types.is_none() || has_type(keywords, InstanceType::Text)
}

fn are_texts(keywords: &Keywords<'_>) -> bool
    ensures { result ≡ names_texts_of (the_schema (keywords_view keywords.now)) }
{
    may_be_text(keywords) && lists_texts(keywords.enum_values) && has_no_other(keywords)
}

fn has_no_other(keywords: &Keywords<'_>) -> bool
    ensures { result ≡ (is_none (plain_view keywords.now).const_value && is_none (plain_view keywords.now).numbers && is_none (plain_view keywords.now).reference && without_same (same_view keywords.now) && without_lists (lists_view keywords.now) && without_named (named_view keywords.now)) }
{
    keywords.const_value.is_none()
        && keywords.numbers.is_none()
        && keywords.reference.is_none()
        && is_without_same(keywords)
        && is_without_lists(keywords)
        && is_without_named(keywords)
}

fn is_of_texts(schema: &Schema) -> bool
    ensures { result ≡ names_texts_of (the_schema (schema_view schema.now)) }
{
    match schema {
        Schema::Bool(b) => *b,
        Schema::Object(object) => are_texts(&keywords_of(object)),
    }
}

// Whether the schema of names has keywords of texts alone.
fn names_texts(names: &Option<Box<Schema>>) -> bool
    ensures { result ≡ names_texts_of (maybe_view names.now) }
{
    match names {
        Some(schema) => is_of_texts(schema),
        None => true,
    }
}

fn part_of_names<'d>(alloc: Global, schema: &'d Schema) -> Result<Part<'d>, AllocError>
    ensures { IfOk result (λ p. part_view p ≡ name_part_of (the_schema (schema_view schema.now))) }
{
    match schema {
        Schema::Bool(_) => {
            let part = any_text(alloc)?;
            Ok(part)
        }
        Schema::Object(_) => Ok(Part {
            kind: PartKind::Child,
            steps: Steps::Under(Keyword::PropertyNames),
            source: Source::Written(schema),
        }),
    }
}

fn name_part<'d>(alloc: Global, names: &'d Option<Box<Schema>>) -> Result<Part<'d>, AllocError>
    ensures { IfOk result (λ p. part_view p ≡ name_part_of (maybe_view names.now)) }
{
    match names {
        Some(schema) => {
            let part = part_of_names(alloc, schema)?;
            Ok(part)
        }
        None => {
            let part = any_text(alloc)?;
            Ok(part)
        }
    }
}

/// A map, unless the schema of its names has other keywords than those of texts.
pub fn map_row<'d>(
    alloc: Global,
    rest: &'d Option<Box<Schema>>,
    names: &'d Option<Box<Schema>>,
) -> Result<Row<'d>, AllocError>
    ensures { IfOk result (λ w. (r : Relations) → row_view r w ≡ map_of (maybe_view rest.now) (maybe_view names.now)) }
{
    if !names_texts(names) {
        return Ok(Row::Refused(Cause::Names));
    }
    let part = name_part(alloc, names)?;
    Ok(Row::Map(part, part_under(Keyword::AdditionalProperties, rest)))
}

/// A map by the patterns, of the schema under the first of them. It takes no memory.
pub fn pattern_row<'d>(patterns: &'d BTreeMap<String, Schema>) -> Row<'d>
    ensures { (r : Relations) → row_view r result ≡ pattern_row_of (properties_view patterns.now.entries) }
{
    let mut entries = patterns.iter();
    match entries.next() {
        Some((pattern, schema)) => Row::PatternMap(
            patterns,
            Part {
                kind: PartKind::Child,
                steps: Steps::Named(Keyword::PatternProperties, pattern.as_str()),
                source: Source::Written(schema),
            },
        ),
        None => Row::Refused(Cause::Names),
    }
}
