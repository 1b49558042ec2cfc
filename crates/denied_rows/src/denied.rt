//! `not`: nothing, anything, or all but listed values.
ghost use Rattle.std.specs.Prelude.{◌≡◌, ◌&&◌, is_none, [], IfOk, map, option_map, string_bytes};
ghost use Rattle.schema_defs.specs.Texts.{Relations};
ghost use Rattle.schema_types.specs.View.{schema_view};
ghost use Rattle.enum_defs.specs.Words.{without_same};
ghost use Rattle.convert_defs.specs.Standing.{words_or, less_enum as less_enum_of};
ghost use Rattle.schema_defs.specs.Schema.{boolean, object};
ghost use Rattle.convert_defs.specs.Table.{not_finding as not_finding_of, deny as deny_of, denied as denied_of, type_of_listed as type_of_listed_of, not_denied as not_denied_of, no_others as no_others_of, has_one_type as has_one_type_of, under_not as under_not_of};
ghost use Rattle.denied_rows.specs.Denied.{is_some_listed, type_of_values as type_of_values_in, not_listed as not_listed_of};
ghost use Rattle.row_findings.specs.Given.{plain_view, same_view, lists_view, named_view, keywords_view, given_values_view};
ghost use Rattle.row_findings.specs.View.{part_view, cause_view, finding_view};

use row_findings::{
    Cause, Finding, GivenValues, Keyword, Keywords, Leaf, NoteKind, Part, PartKind, Row, RowRule,
    Source, Steps, ValueKind, Way, all_of, any_of, has_one_type, is_without_same, keywords_of,
    less_enum, made, no_keyword, no_others, noted, of_type, plainly, refused, with_note,
};
use schema_types::{InstanceType, Schema};
use std::alloc::{AllocError, Global};

fn deny<'d>(
    alloc: Global,
    part: Part<'d>,
    values: GivenValues<'d>,
) -> Result<Finding<'d>, AllocError>
    ensures { IfOk result (λ f. (r : Relations) → finding_view r f ≡ deny_of (part_view part.entry) (given_values_view values.entry)) }
{
    if any_of(values, ValueKind::Owner) {
        return Ok(refused(alloc, Cause::NestedEnum));
    }
    let notes = with_note(Vec::new(alloc), true, Way::Narrowed, NoteKind::Not)?;
    Ok(noted(alloc, notes, Row::Ruled(part, RowRule::Deny(values))))
}

// The one type of listed values.
#[tactic(auto, using(crate::proofs::UnderNot::type_seen))]
fn type_of_listed(values: GivenValues<'_>) -> Option<InstanceType>
    ensures { result ≡ type_of_listed_of (given_values_view values.entry) }
{
    if !lists_something(values) {
        return None;
    }
    type_of_values(values)
}

// Whether a value is listed: of none each is a text and a boolean.
#[tactic(auto, using(crate::proofs::UnderNot::nothing_listed))]
fn lists_something(values: GivenValues<'_>) -> bool
    ensures { result ≡ is_some_listed (given_values_view values.entry) }
{
    !all_of(values, ValueKind::Text) || !all_of(values, ValueKind::Boolean)
}

fn type_of_values(values: GivenValues<'_>) -> Option<InstanceType>
    ensures { result ≡ type_of_values_in (given_values_view values.entry) }
{
    if all_of(values, ValueKind::Text) {
        Some(InstanceType::Text)
    } else if all_of(values, ValueKind::Boolean) {
        Some(InstanceType::Boolean)
    } else if all_of(values, ValueKind::Number) {
        Some(InstanceType::Integer)
    } else {
        None
    }
}

fn cause_of(values: GivenValues<'_>) -> Cause
    ensures { cause_view result ≡ not_denied_of (given_values_view values.entry) }
{
    if any_of(values, ValueKind::Owner) {
        Cause::NestedEnum
    } else {
        Cause::Not
    }
}

// All values of the one type of the listed ones, but these.
fn denied<'d>(alloc: Global, values: GivenValues<'d>) -> Result<Finding<'d>, AllocError>
    ensures { IfOk result (λ f. (r : Relations) → finding_view r f ≡ denied_of (type_of_listed_of (given_values_view values.entry)) (given_values_view values.entry)) }
{
    match type_of_listed(values) {
        Some(kind) => {
            let part = made(alloc, of_type(&no_keyword(), kind))?;
            let finding = deny(alloc, part, values)?;
            Ok(finding)
        }
        None => Ok(refused(alloc, cause_of(values))),
    }
}

fn takes_all(keywords: &Keywords<'_>) -> bool
    ensures { result ≡ (is_none (plain_view keywords.now).types && no_others_of (plain_view keywords.now) (lists_view keywords.now) (named_view keywords.now) && without_same (same_view keywords.now)) }
{
    keywords.types.is_none() && no_others(keywords) && is_without_same(keywords)
}

fn lists_alone(keywords: &Keywords<'_>) -> bool
    ensures { result ≡ (is_none (plain_view keywords.now).types && no_others_of (less_enum_of (plain_view keywords.now)) (lists_view keywords.now) (named_view keywords.now) && without_same (same_view keywords.now)) }
{
    keywords.types.is_none() && no_others(&less_enum(keywords)) && is_without_same(keywords)
}

// The schema under `not`, without its `enum`.
fn under_not<'d>(alloc: Global, keywords: &Keywords<'d>) -> Result<Part<'d>, AllocError>
    ensures { IfOk result (λ p. part_view p ≡ under_not_of (object (less_enum_of (plain_view keywords.now)) (same_view keywords.now) (lists_view keywords.now) (named_view keywords.now))) }
{
    Ok(Part {
        kind: PartKind::Child,
        steps: Steps::Under(Keyword::Not),
        source: Source::Made(Box::new(alloc, less_enum(keywords))?),
    })
}

fn not_listed<'d>(
    alloc: Global,
    keywords: &Keywords<'d>,
    values: GivenValues<'d>,
) -> Result<Finding<'d>, AllocError>
    ensures { IfOk result (λ f. (r : Relations) → finding_view r f ≡ not_listed_of (plain_view keywords.now) (same_view keywords.now) (lists_view keywords.now) (named_view keywords.now) (given_values_view values.entry)) }
{
    if has_one_type(keywords) {
        let part = under_not(alloc, keywords)?;
        let finding = deny(alloc, part, values)?;
        return Ok(finding);
    }
    if lists_alone(keywords) {
        let finding = denied(alloc, values)?;
        return Ok(finding);
    }
    Ok(refused(alloc, Cause::Not))
}

#[tactic(auto, using(crate::proofs::UnderNot::nothing_under, crate::proofs::UnderNot::listed_seen, crate::proofs::UnderNot::unlisted_seen))]
fn not_keywords<'d>(
    alloc: Global,
    title: Option<&'d String>,
    keywords: &Keywords<'d>,
) -> Result<Finding<'d>, AllocError>
    ensures { IfOk result (λ f. (r : Relations) → finding_view r f ≡ not_finding_of (words_or (option_map (λ t. string_bytes t.now) title.entry) []) (keywords_view keywords.now)) }
{
    if takes_all(keywords) {
        return Ok(plainly(alloc, Row::Leaf(Leaf::Never { title })));
    }
    match keywords.enum_values {
        Some(values) => {
            let finding = not_listed(alloc, keywords, values)?;
            Ok(finding)
        }
        None => Ok(refused(alloc, Cause::Not)),
    }
}

/// The row of `not`: nothing under what takes every value, any value under what takes none, and values other than listed
/// ones. `title` is the wanted name.
pub fn not_finding<'d>(
    alloc: Global,
    title: Option<&'d String>,
    schema: &'d Schema,
) -> Result<Finding<'d>, AllocError>
    ensures { IfOk result (λ f. (r : Relations) → finding_view r f ≡ not_finding_of (words_or (option_map (λ t. string_bytes t.now) title.entry) []) (schema_view schema.now)) }
{
    match schema {
        Schema::Bool(b) => Ok(not_bool(alloc, title, *b)),
        Schema::Object(object) => {
            let finding = not_keywords(alloc, title, &keywords_of(object))?;
            Ok(finding)
        }
    }
}

fn not_bool<'d>(alloc: Global, title: Option<&'d String>, b: bool) -> Finding<'d>
    ensures { (r : Relations) → finding_view r result ≡ not_finding_of (words_or (option_map (λ t. string_bytes t.now) title.entry) []) (boolean b) }
{
    if b {
        plainly(alloc, Row::Leaf(Leaf::Never { title }))
    } else {
        plainly(alloc, Row::Leaf(Leaf::Any))
    }
}
