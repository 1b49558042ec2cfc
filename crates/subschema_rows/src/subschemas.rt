//! The one keyword of subschemas that stands.
ghost use Rattle.std.specs.Prelude.{◌≡◌, ◌&&◌, ℕ, List, [], IfOk, option_map, string_bytes, codes};
ghost use Rattle.schema_defs.specs.Texts.{Relations};
ghost use Rattle.schema_tree.specs.Document.{view as document_seen};
ghost use Rattle.schema_types.specs.View.{schemas_view, subschemas_view, maybe_list_view, maybe_view};
ghost use Rattle.schema_defs.specs.Schema.{schemas, Document as DocumentOf};
ghost use Rattle.convert_defs.specs.Standing.{words_or};
ghost use Rattle.convert_defs.specs.Scalars.{wanted_of};
ghost use Rattle.convert_defs.specs.Shapes.{members_from};
ghost use Rattle.convert_defs.specs.Table.{subschema_finding as subschema_finding_of, all_of_finding as all_of_finding_of, any_of_finding as any_of_finding_of, one_of_finding as one_of_finding_of};
ghost use Rattle.row_findings.specs.Given.{plain_view, same_view};
ghost use Rattle.row_findings.specs.View.{finding_view};
ghost use Rattle.subschema_rows.specs.Only.{by_all, by_any, by_one, by_not, all_in, any_in, one_in, none_in, is_missing, is_absent, conditional_in};

use crate::lists::{all_of_finding, any_of_finding};
use denied_rows::not_finding;
use member_rows::members_in;
use one_of_rows::one_of_finding;
use row_findings::{Finding, Keyword, Keywords};
use schema_tree::{Document, Schema, Subschemas};
use std::alloc::{AllocError, Global};

fn all_of<'d>(alloc: Global, list: &'d Vec<Schema>) -> Result<Finding<'d>, AllocError>
    ensures { IfOk result (λ f. (r : Relations) → finding_view r f ≡ all_of_finding_of (members_from (codes "allOf") 0 (schemas (schemas_view list.now.items)))) }
{
    let members = members_in(alloc, Keyword::AllOf, list)?;
    let finding = all_of_finding(alloc, members.as_slice())?;
    Ok(finding)
}

#[tactic(auto, using(crate::proofs::Members::schemas_seen))]
fn any_of<'d>(
    alloc: Global,
    document: &Document,
    title: Option<&'d String>,
    list: &'d Vec<Schema>,
) -> Result<Finding<'d>, AllocError>
    ensures { IfOk result (λ f. (r : Relations) → finding_view r f ≡ any_of_finding_of (document_seen document.now) (words_or (option_map (λ t. string_bytes t.now) title.entry) []) (members_from (codes "anyOf") 0 (schemas (schemas_view list.now.items)))) }
{
    let members = members_in(alloc, Keyword::AnyOf, list)?;
    let finding = any_of_finding(alloc, document, title, list.as_slice(), members.as_slice())?;
    Ok(finding)
}

#[tactic(auto, using(crate::proofs::Members::schemas_seen))]
fn one_of<'d>(
    alloc: Global,
    document: &Document,
    list: &'d Vec<Schema>,
) -> Result<Finding<'d>, AllocError>
    ensures { IfOk result (λ f. (r : Relations) (name : List ℕ) → finding_view r f ≡ one_of_finding_of (document_seen document.now) name (members_from (codes "oneOf") 0 (schemas (schemas_view list.now.items)))) }
{
    let members = members_in(alloc, Keyword::OneOf, list)?;
    let finding = one_of_finding(alloc, document, list.as_slice(), members.as_slice())?;
    Ok(finding)
}

// ---- the keywords, one by one

fn all_list<'d>(subschemas: &'d Subschemas) -> Option<&'d Vec<Schema>>
    ensures { maybe_list_view (option_map (λ v. v.now.items) result) ≡ all_in (subschemas_view subschemas.now) }
{
    subschemas.all_of.as_ref()
}

fn any_list<'d>(subschemas: &'d Subschemas) -> Option<&'d Vec<Schema>>
    ensures { maybe_list_view (option_map (λ v. v.now.items) result) ≡ any_in (subschemas_view subschemas.now) }
{
    subschemas.any_of.as_ref()
}

fn one_list<'d>(subschemas: &'d Subschemas) -> Option<&'d Vec<Schema>>
    ensures { maybe_list_view (option_map (λ v. v.now.items) result) ≡ one_in (subschemas_view subschemas.now) }
{
    subschemas.one_of.as_ref()
}

// Whether none of those after `allOf` stands.
fn is_all_alone(subschemas: &Subschemas) -> bool
    ensures { result ≡ (is_missing (any_in (subschemas_view subschemas.now)) && is_missing (one_in (subschemas_view subschemas.now)) && is_absent (none_in (subschemas_view subschemas.now))) }
{
    subschemas.any_of.is_none() && subschemas.one_of.is_none() && subschemas.not.is_none()
}

// Whether none of those after `anyOf` stands.
fn is_any_alone(subschemas: &Subschemas) -> bool
    ensures { result ≡ (is_missing (one_in (subschemas_view subschemas.now)) && is_absent (none_in (subschemas_view subschemas.now))) }
{
    subschemas.one_of.is_none() && subschemas.not.is_none()
}

// Whether `not` doesn't stand.
fn is_one_alone(subschemas: &Subschemas) -> bool
    ensures { result ≡ is_absent (none_in (subschemas_view subschemas.now)) }
{
    subschemas.not.is_none()
}

fn is_conditional(subschemas: &Subschemas) -> bool
    ensures { result ≡ conditional_in (subschemas_view subschemas.now) }
{
    subschemas.conditional
}

// ---- the rows

// Where `allOf` doesn't stand.
fn any_or_more<'d>(
    alloc: Global,
    document: &Document,
    title: Option<&'d String>,
    subschemas: &'d Subschemas,
) -> Result<Option<Finding<'d>>, AllocError>
    ensures { IfOk result (λ o. (r : Relations) → option_map (finding_view r) o ≡ by_any (document_seen document.now) (words_or (option_map (λ t. string_bytes t.now) title.entry) []) (any_in (subschemas_view subschemas.now)) (one_in (subschemas_view subschemas.now)) (none_in (subschemas_view subschemas.now))) }
{
    match any_list(subschemas) {
        Some(list) => {
            if !is_any_alone(subschemas) {
                return Ok(None);
            }
            let finding = any_of(alloc, document, title, list)?;
            Ok(Some(finding))
        }
        None => {
            let found = one_or_not(alloc, document, title, subschemas)?;
            Ok(found)
        }
    }
}

// Where neither `allOf` nor `anyOf` stands.
fn one_or_not<'d>(
    alloc: Global,
    document: &Document,
    title: Option<&'d String>,
    subschemas: &'d Subschemas,
) -> Result<Option<Finding<'d>>, AllocError>
    ensures { IfOk result (λ o. (r : Relations) → option_map (finding_view r) o ≡ by_one (document_seen document.now) (words_or (option_map (λ t. string_bytes t.now) title.entry) []) (one_in (subschemas_view subschemas.now)) (none_in (subschemas_view subschemas.now))) }
{
    match one_list(subschemas) {
        Some(list) => {
            if !is_one_alone(subschemas) {
                return Ok(None);
            }
            let finding = one_of(alloc, document, list)?;
            Ok(Some(finding))
        }
        None => {
            let found = not_alone(alloc, title, &subschemas.not)?;
            Ok(found)
        }
    }
}

fn not_alone<'d>(
    alloc: Global,
    title: Option<&'d String>,
    schema: &'d Option<Box<Schema>>,
) -> Result<Option<Finding<'d>>, AllocError>
    ensures { IfOk result (λ o. (r : Relations) (d : DocumentOf) → option_map (finding_view r) o ≡ by_not d (words_or (option_map (λ t. string_bytes t.now) title.entry) []) (maybe_view schema.now)) }
{
    match schema {
        Some(schema) => {
            let finding = not_finding(alloc, title, schema)?;
            Ok(Some(finding))
        }
        None => Ok(None),
    }
}

fn by_keyword<'d>(
    alloc: Global,
    document: &Document,
    title: Option<&'d String>,
    subschemas: &'d Subschemas,
) -> Result<Option<Finding<'d>>, AllocError>
    ensures { IfOk result (λ o. (r : Relations) → option_map (finding_view r) o ≡ by_all (document_seen document.now) (words_or (option_map (λ t. string_bytes t.now) title.entry) []) (all_in (subschemas_view subschemas.now)) (any_in (subschemas_view subschemas.now)) (one_in (subschemas_view subschemas.now)) (none_in (subschemas_view subschemas.now))) }
{
    match all_list(subschemas) {
        Some(list) => {
            if !is_all_alone(subschemas) {
                return Ok(None);
            }
            let finding = all_of(alloc, list)?;
            Ok(Some(finding))
        }
        None => {
            let found = any_or_more(alloc, document, title, subschemas)?;
            Ok(found)
        }
    }
}

/// The row of `allOf`, `anyOf`, `oneOf` or `not`, where one of them stands alone.
pub fn subschema_finding<'d>(
    alloc: Global,
    document: &Document,
    keywords: &Keywords<'d>,
) -> Result<Option<Finding<'d>>, AllocError>
    ensures { IfOk result (λ o. (r : Relations) → option_map (finding_view r) o ≡ subschema_finding_of (document_seen document.now) (wanted_of (plain_view keywords.now)) (same_view keywords.now)) }
{
    match keywords.subschemas {
        Some(subschemas) => {
            if is_conditional(subschemas) {
                return Ok(None);
            }
            let found = by_keyword(alloc, document, keywords.title, subschemas)?;
            Ok(found)
        }
        None => Ok(None),
    }
}
