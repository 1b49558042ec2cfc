//! Lines of texts, of whole numbers and of booleans.
ghost use Rattle.std.specs.Prelude.{◌≡◌, ◌&&◌, ◌||◌, is_none, is_some, Some, IfOk, option_map};
ghost use Rattle.schema_defs.specs.Texts.{Relations};
ghost use Rattle.json_value.specs.Value.{text as text_value};
ghost use Rattle.json_value.specs.View.{kept_view};
ghost use Rattle.enum_defs.specs.Words.{as_text, has_type as has_type_of, is_bare as is_bare_of, without_same, without_lists, without_named};
ghost use Rattle.entry_defs.specs.Entry.{integer_entry};
ghost use Rattle.convert_defs.specs.Row.{add_notes, asking, noted as noted_as, leaf_row};
ghost use Rattle.convert_defs.specs.IntegerRow.{integer_of, integer_notes};
ghost use Rattle.convert_defs.specs.Scalars.{patterns_in, string_finding as string_finding_of, enumerated as enumerated_of, boolean_finding as boolean_finding_of, listed_alone as listed_alone_of};
ghost use Rattle.convert_defs.specs.Standing.{less_enum as less_enum_of};
ghost use Rattle.convert_defs.specs.Table.{untyped, listed, constant_of, constant_finding as constant_finding_of, no_others as no_others_of};
ghost use Rattle.row_findings.specs.Given.{plain_view, same_view, lists_view, named_view};
ghost use Rattle.type_rows.specs.Line.{held_view, line};

use integer_rows::integer_finding;
use row_findings::{
    Finding, Keywords, NoteKind, Way, has_type, is_bare, is_without_lists, is_without_named,
    is_without_same, less_enum, no_others, with_note,
};
use scalar_rows::{
    asking_patterns, boolean_finding, constant_finding, enumerated, listed_alone, string_finding,
};
use schema_types::InstanceType;
use serde_json::Value;
use std::alloc::{AllocError, Global};
use type_rows::hold;

/// Texts.
pub fn text_line<'d>(
    alloc: Global,
    keywords: &Keywords<'d>,
) -> Result<Option<Box<Finding<'d>>>, AllocError>
    ensures { IfOk result (λ o. (r : Relations) → option_map (held_view r) o ≡ line (has_type_of InstanceType.Text (plain_view keywords.now).types && is_bare_of (plain_view keywords.now) (same_view keywords.now)) (asking (patterns_in (plain_view keywords.now)) (string_finding_of (plain_view keywords.now)))) }
{
    if has_type(keywords, InstanceType::Text) && is_bare(keywords) {
        let finding = string_finding(alloc, Vec::new(alloc), keywords)?;
        Ok(Some(hold(alloc, finding)?))
    } else {
        Ok(None)
    }
}

fn is_untyped_text(keywords: &Keywords<'_>) -> bool
    ensures { result ≡ (is_none (plain_view keywords.now).types && is_some (plain_view keywords.now).texts && is_none (plain_view keywords.now).numbers && is_bare_of (plain_view keywords.now) (same_view keywords.now) && without_lists (lists_view keywords.now) && without_named (named_view keywords.now)) }
{
    keywords.types.is_none()
        && keywords.texts.is_some()
        && keywords.numbers.is_none()
        && is_bare(keywords)
        && is_without_lists(keywords)
        && is_without_named(keywords)
}

/// Keywords of texts without a type.
pub fn untyped_text_line<'d>(
    alloc: Global,
    keywords: &Keywords<'d>,
) -> Result<Option<Box<Finding<'d>>>, AllocError>
    ensures { IfOk result (λ o. (r : Relations) → option_map (held_view r) o ≡ line (is_none (plain_view keywords.now).types && is_some (plain_view keywords.now).texts && is_none (plain_view keywords.now).numbers && is_bare_of (plain_view keywords.now) (same_view keywords.now) && without_lists (lists_view keywords.now) && without_named (named_view keywords.now)) (asking (patterns_in (plain_view keywords.now)) (add_notes untyped (string_finding_of (plain_view keywords.now))))) }
{
    if !is_untyped_text(keywords) {
        return Ok(None);
    }
    let notes = with_note(Vec::new(alloc), true, Way::Narrowed, NoteKind::Untyped)?;
    let finding = string_finding(alloc, notes, keywords)?;
    Ok(Some(hold(alloc, finding)?))
}

fn is_enumerated_text(keywords: &Keywords<'_>) -> bool
    ensures { result ≡ (has_type_of InstanceType.Text (plain_view keywords.now).types && is_some (plain_view keywords.now).enum_values && is_none (plain_view keywords.now).const_value && is_none (plain_view keywords.now).reference && without_same (same_view keywords.now)) }
{
    has_type(keywords, InstanceType::Text)
        && keywords.enum_values.is_some()
        && keywords.const_value.is_none()
        && keywords.reference.is_none()
        && is_without_same(keywords)
}

/// Listed texts.
pub fn enumerated_line<'d>(
    alloc: Global,
    keywords: &Keywords<'d>,
) -> Result<Option<Box<Finding<'d>>>, AllocError>
    ensures { IfOk result (λ o. (r : Relations) → option_map (held_view r) o ≡ line (has_type_of InstanceType.Text (plain_view keywords.now).types && is_some (plain_view keywords.now).enum_values && is_none (plain_view keywords.now).const_value && is_none (plain_view keywords.now).reference && without_same (same_view keywords.now)) (asking (patterns_in (plain_view keywords.now)) (enumerated_of r (plain_view keywords.now) (listed (plain_view keywords.now).enum_values)))) }
{
    if !is_enumerated_text(keywords) {
        return Ok(None);
    }
    match keywords.enum_values {
        Some(values) => {
            let finding = enumerated(alloc, keywords, values)?;
            Ok(Some(hold(alloc, asking_patterns(finding, keywords))?))
        }
        None => Ok(None),
    }
}

fn may_be_text(keywords: &Keywords<'_>) -> bool
    ensures { result ≡ (is_none (plain_view keywords.now).types || has_type_of InstanceType.Text (plain_view keywords.now).types) }
{
    keywords.types.is_none() || has_type(keywords, InstanceType::Text)
}

fn is_constant_text(keywords: &Keywords<'_>) -> bool
    ensures { result ≡ ((is_none (plain_view keywords.now).types || has_type_of InstanceType.Text (plain_view keywords.now).types) && is_none (plain_view keywords.now).reference && without_same (same_view keywords.now)) }
{
    may_be_text(keywords) && keywords.reference.is_none() && is_without_same(keywords)
}

// The line of a constant that is a text.
fn constant_text<'d>(
    alloc: Global,
    keywords: &Keywords<'d>,
    constant: &'d Value,
    text: &'d str,
) -> Result<Option<Box<Finding<'d>>>, AllocError>
    requires { kept_view constant.now ≡ text_value text.now }
    ensures { IfOk result (λ o. (r : Relations) → option_map (held_view r) o ≡ line ((is_none (plain_view keywords.now).types || has_type_of InstanceType.Text (plain_view keywords.now).types) && is_none (plain_view keywords.now).reference && without_same (same_view keywords.now)) (asking (patterns_in (plain_view keywords.now)) (constant_finding_of r (plain_view keywords.now) (Some text.now)))) }
{
    if !is_constant_text(keywords) {
        return Ok(None);
    }
    let finding = constant_finding(alloc, keywords, constant, text)?;
    Ok(Some(hold(alloc, asking_patterns(finding, keywords))?))
}

#[tactic(auto, using(enum_shapes::proofs::Seen::text_seen))]
fn text_in(value: &Value) -> Option<&str>
    ensures { option_map (λ t. t.now) result ≡ as_text (kept_view value.now) }
{
    value.as_str()
}

/// A constant text.
#[tactic(auto, using(crate::proofs::Found::text_is))]
pub fn constant_text_line<'d>(
    alloc: Global,
    keywords: &Keywords<'d>,
) -> Result<Option<Box<Finding<'d>>>, AllocError>
    ensures { IfOk result (λ o. (r : Relations) → option_map (held_view r) o ≡ line (is_some (constant_of (plain_view keywords.now)) && (is_none (plain_view keywords.now).types || has_type_of InstanceType.Text (plain_view keywords.now).types) && is_none (plain_view keywords.now).reference && without_same (same_view keywords.now)) (asking (patterns_in (plain_view keywords.now)) (constant_finding_of r (plain_view keywords.now) (constant_of (plain_view keywords.now))))) }
{
    match keywords.const_value {
        Some(constant) => match text_in(constant) {
            Some(text) => {
                let found = constant_text(alloc, keywords, constant, text)?;
                Ok(found)
            }
            None => Ok(None),
        },
        None => Ok(None),
    }
}

/// Whole numbers.
pub fn integer_line<'d>(
    alloc: Global,
    keywords: &Keywords<'d>,
) -> Result<Option<Box<Finding<'d>>>, AllocError>
    ensures { IfOk result (λ o. (r : Relations) → option_map (held_view r) o ≡ line (has_type_of InstanceType.Integer (plain_view keywords.now).types && is_bare_of (plain_view keywords.now) (same_view keywords.now)) (noted_as (integer_notes (plain_view keywords.now)) (leaf_row (integer_entry (integer_of (plain_view keywords.now)))))) }
{
    if has_type(keywords, InstanceType::Integer) && is_bare(keywords) {
        let finding = integer_finding(alloc, keywords)?;
        Ok(Some(hold(alloc, finding)?))
    } else {
        Ok(None)
    }
}

fn is_boolean(keywords: &Keywords<'_>) -> bool
    ensures { result ≡ (has_type_of InstanceType.Boolean (plain_view keywords.now).types && is_none (plain_view keywords.now).format && is_none (plain_view keywords.now).const_value && is_none (plain_view keywords.now).reference && without_same (same_view keywords.now)) }
{
    has_type(keywords, InstanceType::Boolean)
        && keywords.format.is_none()
        && keywords.const_value.is_none()
        && keywords.reference.is_none()
        && is_without_same(keywords)
}

/// Booleans.
pub fn boolean_line<'d>(
    alloc: Global,
    keywords: &Keywords<'d>,
) -> Result<Option<Box<Finding<'d>>>, AllocError>
    ensures { IfOk result (λ o. (r : Relations) → option_map (held_view r) o ≡ line (has_type_of InstanceType.Boolean (plain_view keywords.now).types && is_none (plain_view keywords.now).format && is_none (plain_view keywords.now).const_value && is_none (plain_view keywords.now).reference && without_same (same_view keywords.now)) (boolean_finding_of (plain_view keywords.now).enum_values)) }
{
    if !is_boolean(keywords) {
        return Ok(None);
    }
    let finding = boolean_finding(alloc, keywords.enum_values)?;
    Ok(Some(hold(alloc, finding)?))
}

fn is_listed_alone(keywords: &Keywords<'_>) -> bool
    ensures { result ≡ (is_some (plain_view keywords.now).enum_values && is_none (plain_view keywords.now).types && no_others_of (less_enum_of (plain_view keywords.now)) (lists_view keywords.now) (named_view keywords.now) && without_same (same_view keywords.now)) }
{
    keywords.enum_values.is_some()
        && keywords.types.is_none()
        && no_others(&less_enum(keywords))
        && is_without_same(keywords)
}

/// Listed values without a type.
pub fn listed_line<'d>(
    alloc: Global,
    keywords: &Keywords<'d>,
) -> Result<Option<Box<Finding<'d>>>, AllocError>
    ensures { IfOk result (λ o. (r : Relations) → option_map (held_view r) o ≡ line (is_some (plain_view keywords.now).enum_values && is_none (plain_view keywords.now).types && no_others_of (less_enum_of (plain_view keywords.now)) (lists_view keywords.now) (named_view keywords.now) && without_same (same_view keywords.now)) (listed_alone_of (plain_view keywords.now) (listed (plain_view keywords.now).enum_values))) }
{
    if !is_listed_alone(keywords) {
        return Ok(None);
    }
    match keywords.enum_values {
        Some(values) => {
            let finding = listed_alone(alloc, keywords, values)?;
            Ok(Some(hold(alloc, finding)?))
        }
        None => Ok(None),
    }
}
