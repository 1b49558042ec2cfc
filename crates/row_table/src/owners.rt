//! Lines of objects and of arrays.
ghost use Rattle.std.specs.Prelude.{◌≡◌, ◌&&◌, not, is_none, IfOk, option_map};
ghost use Rattle.schema_defs.specs.Texts.{Relations};
ghost use Rattle.schema_tree.specs.Document.{view as document_seen};
ghost use Rattle.enum_defs.specs.Words.{has_type as has_type_of, is_bare as is_bare_of, without_lists, without_named};
ghost use Rattle.convert_defs.specs.Row.{add_notes};
ghost use Rattle.convert_defs.specs.Standing.{is_untyped as is_untyped_of};
ghost use Rattle.convert_defs.specs.Owners.{array_finding as array_finding_of, object_finding as object_finding_of};
ghost use Rattle.convert_defs.specs.Table.{untyped};
ghost use Rattle.row_findings.specs.Given.{plain_view, same_view, lists_view, named_view};
ghost use Rattle.type_rows.specs.Line.{held_view, line};

use array_rows::array_finding;
use object_rows::object_finding;
use row_findings::{
    Finding, Keywords, NoteKind, Way, has_type, is_bare, is_untyped, is_without_lists,
    is_without_named, with_note,
};
use schema_tree::Document;
use schema_types::InstanceType;
use std::alloc::{AllocError, Global};
use type_rows::hold;

fn is_object(keywords: &Keywords<'_>) -> bool
    ensures { result ≡ (has_type_of InstanceType.Object (plain_view keywords.now).types && is_none (plain_view keywords.now).format && is_bare_of (plain_view keywords.now) (same_view keywords.now)) }
{
    has_type(keywords, InstanceType::Object) && keywords.format.is_none() && is_bare(keywords)
}

/// Objects.
pub fn object_line<'d>(
    alloc: Global,
    document: &Document,
    keywords: &Keywords<'d>,
) -> Result<Option<Box<Finding<'d>>>, AllocError>
    ensures { IfOk result (λ o. (r : Relations) → option_map (held_view r) o ≡ line (has_type_of InstanceType.Object (plain_view keywords.now).types && is_none (plain_view keywords.now).format && is_bare_of (plain_view keywords.now) (same_view keywords.now)) (object_finding_of (document_seen document.now).setting (named_view keywords.now))) }
{
    if !is_object(keywords) {
        return Ok(None);
    }
    let finding = object_finding(alloc, document.setting(), Vec::new(alloc), keywords.members)?;
    Ok(Some(hold(alloc, finding)?))
}

fn is_untyped_object(keywords: &Keywords<'_>) -> bool
    ensures { result ≡ (is_untyped_of (plain_view keywords.now) && is_bare_of (plain_view keywords.now) (same_view keywords.now) && without_lists (lists_view keywords.now) && not (without_named (named_view keywords.now))) }
{
    is_untyped(keywords)
        && is_bare(keywords)
        && is_without_lists(keywords)
        && !is_without_named(keywords)
}

/// Keywords of members without a type.
pub fn untyped_object_line<'d>(
    alloc: Global,
    document: &Document,
    keywords: &Keywords<'d>,
) -> Result<Option<Box<Finding<'d>>>, AllocError>
    ensures { IfOk result (λ o. (r : Relations) → option_map (held_view r) o ≡ line (is_untyped_of (plain_view keywords.now) && is_bare_of (plain_view keywords.now) (same_view keywords.now) && without_lists (lists_view keywords.now) && not (without_named (named_view keywords.now))) (add_notes untyped (object_finding_of (document_seen document.now).setting (named_view keywords.now)))) }
{
    if !is_untyped_object(keywords) {
        return Ok(None);
    }
    let notes = with_note(Vec::new(alloc), true, Way::Narrowed, NoteKind::Untyped)?;
    let finding = object_finding(alloc, document.setting(), notes, keywords.members)?;
    Ok(Some(hold(alloc, finding)?))
}

fn is_array(keywords: &Keywords<'_>) -> bool
    ensures { result ≡ (has_type_of InstanceType.Array (plain_view keywords.now).types && is_none (plain_view keywords.now).format && is_bare_of (plain_view keywords.now) (same_view keywords.now)) }
{
    has_type(keywords, InstanceType::Array) && keywords.format.is_none() && is_bare(keywords)
}

/// Arrays.
pub fn array_line<'d>(
    alloc: Global,
    keywords: &Keywords<'d>,
) -> Result<Option<Box<Finding<'d>>>, AllocError>
    ensures { IfOk result (λ o. (r : Relations) → option_map (held_view r) o ≡ line (has_type_of InstanceType.Array (plain_view keywords.now).types && is_none (plain_view keywords.now).format && is_bare_of (plain_view keywords.now) (same_view keywords.now)) (array_finding_of (lists_view keywords.now))) }
{
    if !is_array(keywords) {
        return Ok(None);
    }
    let finding = array_finding(alloc, Vec::new(alloc), keywords.lists)?;
    Ok(Some(hold(alloc, finding)?))
}

fn is_untyped_array(keywords: &Keywords<'_>) -> bool
    ensures { result ≡ (is_untyped_of (plain_view keywords.now) && is_bare_of (plain_view keywords.now) (same_view keywords.now) && without_named (named_view keywords.now) && not (without_lists (lists_view keywords.now))) }
{
    is_untyped(keywords)
        && is_bare(keywords)
        && is_without_named(keywords)
        && !is_without_lists(keywords)
}

/// Keywords of lists without a type.
pub fn untyped_array_line<'d>(
    alloc: Global,
    keywords: &Keywords<'d>,
) -> Result<Option<Box<Finding<'d>>>, AllocError>
    ensures { IfOk result (λ o. (r : Relations) → option_map (held_view r) o ≡ line (is_untyped_of (plain_view keywords.now) && is_bare_of (plain_view keywords.now) (same_view keywords.now) && without_named (named_view keywords.now) && not (without_lists (lists_view keywords.now))) (add_notes untyped (array_finding_of (lists_view keywords.now)))) }
{
    if !is_untyped_array(keywords) {
        return Ok(None);
    }
    let notes = with_note(Vec::new(alloc), true, Way::Narrowed, NoteKind::Untyped)?;
    let finding = array_finding(alloc, notes, keywords.lists)?;
    Ok(Some(hold(alloc, finding)?))
}
