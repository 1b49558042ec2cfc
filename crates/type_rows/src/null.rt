//! Two types of which one is null, and null alone.
ghost use Rattle.std.specs.Prelude.{◌≡◌, ◌&&◌, ◌||◌, not, is_some, Some, IfOk, option_map};
ghost use Rattle.schema_defs.specs.declared.InstanceType.{InstanceType};
ghost use Rattle.schema_defs.specs.Schema.{object};
ghost use Rattle.schema_defs.specs.Texts.{Relations};
ghost use Rattle.enum_defs.specs.Words.{has_type as has_type_of, is_bare as is_bare_of, without_same};
ghost use Rattle.entry_defs.specs.Entry.{unit_entry};
ghost use Rattle.convert_defs.specs.Row.{plainly as plainly_as, noted as noted_as, leaf_row};
ghost use Rattle.convert_defs.specs.Standing.{of_type as of_type_of};
ghost use Rattle.convert_defs.specs.Scalars.{non_null};
ghost use Rattle.convert_defs.specs.Table.{type_beside_null as type_beside_null_of, beside_null as beside_null_of, lists_only_nulls as lists_only_nulls_of, lists_no_null as lists_no_null_of, nullable, nullable_notes};
ghost use Rattle.row_findings.specs.Given.{given_values_view, plain_view, same_view, lists_view, named_view, keywords_view};
ghost use Rattle.row_findings.specs.View.{row_view};
ghost use Rattle.type_rows.specs.Line.{held_view, line};

use crate::line::hold;
use row_findings::{
    Finding, GivenTypes, GivenValues, Keywords, Leaf, NoteKind, Row, ValueKind, Way, all_of,
    any_of, has_type, is_bare, made, noted, plainly, same_type, type_beside_null, with_note,
};
use scalar_rows::less_null;
use schema_types::InstanceType;
use std::alloc::{AllocError, Global};

/// Two types, with null: the option of the schema with the other, without nulls; or null.
pub fn beside_null_line<'d>(
    alloc: Global,
    keywords: &Keywords<'d>,
) -> Result<Option<Box<Finding<'d>>>, AllocError>
    ensures { IfOk result (λ o. (r : Relations) → option_map (held_view r) o ≡ line (is_some (type_beside_null_of (plain_view keywords.now).types)) (noted_as (nullable_notes (plain_view keywords.now) (same_view keywords.now)) (nullable (plain_view keywords.now) (same_view keywords.now) (lists_view keywords.now) (named_view keywords.now) (type_beside_null_of (plain_view keywords.now).types)))) }
{
    match type_beside_null(keywords) {
        Some(kind) => {
            let notes = with_note(
                Vec::new(alloc),
                is_widened(keywords),
                Way::Widened,
                NoteKind::Null,
            )?;
            let row = nullable_row(alloc, keywords, kind)?;
            Ok(Some(hold(alloc, noted(alloc, notes, row))?))
        }
        None => Ok(None),
    }
}

fn is_widened(keywords: &Keywords<'_>) -> bool
    ensures { result ≡ (is_some (plain_view keywords.now).const_value || is_some (plain_view keywords.now).reference || not (without_same (same_view keywords.now)) || lists_no_null_of (plain_view keywords.now).enum_values) }
{
    keywords.const_value.is_some()
        || keywords.reference.is_some()
        || keywords.subschemas.is_some()
        || lists_no_null(keywords)
}

fn lists_no_null(keywords: &Keywords<'_>) -> bool
    ensures { result ≡ lists_no_null_of (plain_view keywords.now).enum_values }
{
    match keywords.enum_values {
        Some(values) => !any_of(values, ValueKind::Null),
        None => false,
    }
}

fn lists_only_nulls(keywords: &Keywords<'_>) -> bool
    ensures { result ≡ lists_only_nulls_of (plain_view keywords.now).enum_values }
{
    match keywords.enum_values {
        Some(values) => all_of(values, ValueKind::Null),
        None => false,
    }
}

fn nullable_row<'d>(
    alloc: Global,
    keywords: &Keywords<'d>,
    kind: InstanceType,
) -> Result<Row<'d>, AllocError>
    ensures { IfOk result (λ w. (r : Relations) → row_view r w ≡ nullable (plain_view keywords.now) (same_view keywords.now) (lists_view keywords.now) (named_view keywords.now) (Some kind)) }
{
    if lists_only_nulls(keywords) || same_type(InstanceType::Null, kind) {
        return Ok(Row::Leaf(Leaf::Unit));
    }
    let part = made(alloc, beside_null(keywords, kind))?;
    Ok(Row::Option(part))
}

fn beside_null<'d>(keywords: &Keywords<'d>, kind: InstanceType) -> Keywords<'d>
    ensures { keywords_view result ≡ object (beside_null_of (of_type_of kind (plain_view keywords.now))) (same_view keywords.now) (lists_view keywords.now) (named_view keywords.now) }
{
    let written = *keywords;
    Keywords {
        types: Some(GivenTypes::One(kind)),
        enum_values: less_nulls(keywords.enum_values),
        default: less_null(keywords.default),
        ..written
    }
}

fn less_nulls<'d>(values: Option<GivenValues<'d>>) -> Option<GivenValues<'d>>
    ensures { option_map given_values_view result ≡ option_map non_null (option_map given_values_view values.entry) }
{
    match values {
        Some(values) => Some(GivenValues {
            listed: values.listed,
            less_nulls: true,
        }),
        None => None,
    }
}

/// The type null alone.
pub fn null_line<'d>(
    alloc: Global,
    keywords: &Keywords<'d>,
) -> Result<Option<Box<Finding<'d>>>, AllocError>
    ensures { IfOk result (λ o. (r : Relations) → option_map (held_view r) o ≡ line (has_type_of InstanceType.Null (plain_view keywords.now).types && is_bare_of (plain_view keywords.now) (same_view keywords.now)) (plainly_as (leaf_row unit_entry))) }
{
    if has_type(keywords, InstanceType::Null) && is_bare(keywords) {
        Ok(Some(hold(alloc, plainly(alloc, Row::Leaf(Leaf::Unit)))?))
    } else {
        Ok(None)
    }
}
