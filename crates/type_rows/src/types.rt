//! Lines that look at keywords alone.
ghost use Rattle.std.specs.Prelude.{◌≡◌, ◌&&◌, not, is_none, is_some, [], ◌∷◌, IfOk, option_map};
ghost use Rattle.schema_defs.specs.Schema.{object, no_same, no_lists, no_named};
ghost use Rattle.schema_defs.specs.Texts.{Relations};
ghost use Rattle.enum_defs.specs.Words.{is_bare as is_bare_of, without_same, without_lists, without_named};
ghost use Rattle.entry_defs.specs.Entry.{any_entry};
ghost use Rattle.convert_defs.specs.Row.{plainly as plainly_as, noted as noted_as, here, widened, const_note, leaf_row, as_it_is_row, merged_row, refused_row, conditional, made as made_of};
ghost use Rattle.convert_defs.specs.Standing.{is_untyped as is_untyped_of, has_conditional as has_conditional_of, less_const as less_const_of, less_enum as less_enum_of, no_keyword as no_keyword_of};
ghost use Rattle.convert_defs.specs.Table.{has_one_type as has_one_type_of, allowed_row, listed};
ghost use Rattle.row_findings.specs.Given.{plain_view, same_view, lists_view, named_view, keywords_view, given_values_view};
ghost use Rattle.row_findings.specs.View.{part_view, finding_view};
ghost use Rattle.type_rows.specs.Line.{held_view, line};

use crate::line::hold;
use row_findings::{
    Cause, Finding, GivenValues, Keywords, Leaf, NoteKind, Part, Row, RowRule, ValueKind, Way,
    any_of, has_conditional, has_one_type, is_bare, is_untyped, is_without_lists, is_without_named,
    is_without_same, less_const, less_enum, made, no_keyword, noted, plainly, refused, with_note,
};
use std::alloc::{AllocError, Global};

/// `if`, `then` or `else`: refused.
pub fn conditional_line<'d>(
    alloc: Global,
    keywords: &Keywords<'d>,
) -> Result<Option<Box<Finding<'d>>>, AllocError>
    ensures { IfOk result (λ o. (r : Relations) → option_map (held_view r) o ≡ line (has_conditional_of (same_view keywords.now)) (plainly_as (refused_row conditional))) }
{
    if has_conditional(keywords) {
        Ok(Some(hold(alloc, refused(alloc, Cause::Conditional))?))
    } else {
        Ok(None)
    }
}

/// No keyword: any value.
pub fn any_line<'d>(
    alloc: Global,
    keywords: &Keywords<'d>,
) -> Result<Option<Box<Finding<'d>>>, AllocError>
    ensures { IfOk result (λ o. (r : Relations) → option_map (held_view r) o ≡ line (is_untyped_of (plain_view keywords.now) && is_bare_of (plain_view keywords.now) (same_view keywords.now) && without_lists (lists_view keywords.now) && without_named (named_view keywords.now)) (plainly_as (leaf_row any_entry))) }
{
    if is_untyped(keywords)
        && is_bare(keywords)
        && is_without_lists(keywords)
        && is_without_named(keywords)
    {
        Ok(Some(hold(alloc, plainly(alloc, Row::Leaf(Leaf::Any)))?))
    } else {
        Ok(None)
    }
}

/// One type and `enum`: the schema without `enum`, and the rule.
pub fn allowed_line<'d>(
    alloc: Global,
    keywords: &Keywords<'d>,
) -> Result<Option<Box<Finding<'d>>>, AllocError>
    ensures { IfOk result (λ o. (r : Relations) → option_map (held_view r) o ≡ line (has_one_type_of (plain_view keywords.now).types && is_some (plain_view keywords.now).enum_values) (plainly_as (allowed_row (made_of (object (less_enum_of (plain_view keywords.now)) (same_view keywords.now) (lists_view keywords.now) (named_view keywords.now))) (listed (plain_view keywords.now).enum_values)))) }
{
    if !has_one_type(keywords) {
        return Ok(None);
    }
    match keywords.enum_values {
        Some(values) => {
            let part = made(alloc, less_enum(keywords))?;
            Ok(Some(hold(alloc, allowed(alloc, part, values))?))
        }
        None => Ok(None),
    }
}

fn allowed<'d>(alloc: Global, part: Part<'d>, values: GivenValues<'d>) -> Finding<'d>
    ensures { (r : Relations) → finding_view r result ≡ plainly_as (allowed_row (part_view part.entry) (given_values_view values.entry)) }
{
    if any_of(values, ValueKind::Owner) {
        refused(alloc, Cause::NestedEnum)
    } else {
        plainly(alloc, Row::Ruled(part, RowRule::Allow(values)))
    }
}

/// `const`: the schema without it, with a note.
pub fn constant_line<'d>(
    alloc: Global,
    keywords: &Keywords<'d>,
) -> Result<Option<Box<Finding<'d>>>, AllocError>
    ensures { IfOk result (λ o. (r : Relations) → option_map (held_view r) o ≡ line (is_some (plain_view keywords.now).const_value) (noted_as (here widened const_note ∷ []) (as_it_is_row (made_of (object (less_const_of (plain_view keywords.now)) (same_view keywords.now) (lists_view keywords.now) (named_view keywords.now)))))) }
{
    if keywords.const_value.is_none() {
        return Ok(None);
    }
    let notes = with_note(Vec::new(alloc), true, Way::Widened, NoteKind::Const)?;
    let part = made(alloc, less_const(keywords))?;
    let held = hold(alloc, noted(alloc, notes, Row::AsItIs(part)))?;
    Ok(Some(held))
}

// The schema without subschemas.
fn less_subschemas<'d>(keywords: &Keywords<'d>) -> Keywords<'d>
    ensures { keywords_view result ≡ object (plain_view keywords.now) no_same (lists_view keywords.now) (named_view keywords.now) }
{
    let written = *keywords;
    Keywords {
        subschemas: None,
        ..written
    }
}

// The subschemas alone.
fn subschemas_alone<'d>(keywords: &Keywords<'d>) -> Keywords<'d>
    ensures { keywords_view result ≡ object no_keyword_of (same_view keywords.now) no_lists no_named }
{
    let nothing = no_keyword();
    Keywords {
        subschemas: keywords.subschemas,
        ..nothing
    }
}

/// Subschemas beside other keywords, or several kinds of them: the merge of the two.
pub fn several_line<'d>(
    alloc: Global,
    keywords: &Keywords<'d>,
) -> Result<Option<Box<Finding<'d>>>, AllocError>
    ensures { IfOk result (λ o. (r : Relations) → option_map (held_view r) o ≡ line (not (without_same (same_view keywords.now))) (plainly_as (merged_row (made_of (object (plain_view keywords.now) no_same (lists_view keywords.now) (named_view keywords.now)) ∷ made_of (object no_keyword_of (same_view keywords.now) no_lists no_named) ∷ [])))) }
{
    if is_without_same(keywords) {
        return Ok(None);
    }
    let mut parts = Vec::new(alloc);
    parts.push(made(alloc, less_subschemas(keywords))?)?;
    parts.push(made(alloc, subschemas_alone(keywords))?)?;
    Ok(Some(hold(alloc, plainly(alloc, Row::Merged(parts)))?))
}
