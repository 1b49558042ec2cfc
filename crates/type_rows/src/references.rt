//! Lines of references.
ghost use Rattle.std.specs.Prelude.{◌≡◌, ◌&&◌, ◌++◌, [], ◌∷◌, is_none, is_some, Some, IfOk, map, option_map};
ghost use Rattle.schema_defs.specs.Schema.{object, one_type, many_types};
ghost use Rattle.schema_defs.specs.Texts.{Relations};
ghost use Rattle.schema_tree.specs.Document.{view as document_seen};
ghost use Rattle.enum_defs.specs.Words.{without_same};
ghost use Rattle.convert_defs.specs.Row.{plainly as plainly_as, merged_row, made as made_of};
ghost use Rattle.convert_defs.specs.Standing.{less_reference as less_reference_of};
ghost use Rattle.convert_defs.specs.Table.{reference_row, no_others as no_others_of, same_lists as same_lists_of, same_types, types_of_schema, target_types, target_part};
ghost use Rattle.schema_types.specs.View.{types_view, schema_view};
ghost use Rattle.row_findings.specs.Given.{plain_view, same_view, lists_view, named_view, given_types_view};
ghost use Rattle.row_findings.specs.View.{part_view};
ghost use Rattle.type_rows.specs.Line.{held_view, line};

use crate::line::hold;
use row_findings::{
    Finding, GivenTypes, Keywords, Part, PartKind, Row, Source, Steps, is_without_same,
    less_reference, made, no_others, plainly, same_type,
};
use schema_tree::Document;
use schema_types::{InstanceType, Schema, Types};
use std::alloc::{AllocError, Global};

// Nothing but a reference and a type.
fn refers_at_most(keywords: &Keywords<'_>) -> bool
    ensures { result ≡ (no_others_of (less_reference_of (plain_view keywords.now)) (lists_view keywords.now) (named_view keywords.now) && without_same (same_view keywords.now)) }
{
    no_others(&less_reference(keywords)) && is_without_same(keywords)
}

/// A reference alone.
pub fn reference_line<'d>(
    alloc: Global,
    keywords: &Keywords<'d>,
) -> Result<Option<Box<Finding<'d>>>, AllocError>
    ensures { IfOk result (λ o. (r : Relations) → option_map (held_view r) o ≡ line (is_some (plain_view keywords.now).reference && is_none (plain_view keywords.now).types && no_others_of (less_reference_of (plain_view keywords.now)) (lists_view keywords.now) (named_view keywords.now) && without_same (same_view keywords.now)) (plainly_as (reference_row (plain_view keywords.now).reference))) }
{
    match keywords.reference {
        Some(reference) => {
            if keywords.types.is_none() && refers_at_most(keywords) {
                Ok(Some(hold(alloc, plainly(alloc, Row::Reference(reference)))?))
            } else {
                Ok(None)
            }
        }
        None => Ok(None),
    }
}

/// A reference with other keywords: the merge of what it leads to and the rest.
pub fn reference_with_others_line<'d>(
    alloc: Global,
    document: &'d Document,
    keywords: &Keywords<'d>,
) -> Result<Option<Box<Finding<'d>>>, AllocError>
    ensures { IfOk result (λ o. (r : Relations) → option_map (held_view r) o ≡ line (is_some (plain_view keywords.now).reference) (plainly_as (merged_row (target_part (document_seen document.now) (plain_view keywords.now).reference ++ made_of (object (less_reference_of (plain_view keywords.now)) (same_view keywords.now) (lists_view keywords.now) (named_view keywords.now)) ∷ [])))) }
{
    match keywords.reference {
        Some(reference) => {
            let parts = merged_parts(alloc, document, keywords, reference)?;
            Ok(Some(hold(alloc, plainly(alloc, Row::Merged(parts)))?))
        }
        None => Ok(None),
    }
}

// What the reference leads to, and the schema without it.
fn merged_parts<'d>(
    alloc: Global,
    document: &'d Document,
    keywords: &Keywords<'d>,
    reference: &str,
) -> Result<Vec<Part<'d>>, AllocError>
    ensures { IfOk result (λ v. map part_view v.items ≡ target_part (document_seen document.now) (Some reference.now) ++ made_of (object (less_reference_of (plain_view keywords.now)) (same_view keywords.now) (lists_view keywords.now) (named_view keywords.now)) ∷ []) }
{
    let mut parts = target_parts(alloc, document, reference)?;
    let rest = made(alloc, less_reference(keywords))?;
    parts.push(rest)?;
    Ok(parts)
}

fn target_parts<'d>(
    alloc: Global,
    document: &'d Document,
    reference: &str,
) -> Result<Vec<Part<'d>>, AllocError>
    ensures { IfOk result (λ v. map part_view v.items ≡ target_part (document_seen document.now) (Some reference.now)) }
{
    let mut parts = Vec::new(alloc);
    match document.target(reference) {
        Some(schema) => {
            parts.push(Part {
                kind: PartKind::Made,
                steps: Steps::Here,
                source: Source::Written(schema),
            })?;
            Ok(parts)
        }
        None => Ok(parts),
    }
}

#[tactic(auto, using(crate::proofs::SeveralTypes::none_left))]
fn same_lists(kinds: &Vec<InstanceType>, others: &Vec<InstanceType>) -> bool
    ensures { result ≡ same_lists_of kinds.now.items others.now.items }
{
    let mut left = kinds.as_slice();
    let mut right = others.as_slice();
    while let Some((kind, kinds_left)) = left.split_first() {
        match right.split_first() {
            Some((other, others_left)) => {
                if !same_type(*kind, *other) {
                    return false;
                }
                right = others_left;
            }
            None => return false,
        }
        left = kinds_left;
    }
    right.is_empty()
}

// Whether a schema has the one type, or the list.
fn has_the_types(given: GivenTypes<'_>, types: &Types) -> bool
    ensures { result ≡ same_types (Some (given_types_view given.entry)) (Some (types_view types.now)) }
{
    match given {
        GivenTypes::One(kind) => is_one_type(kind, types),
        GivenTypes::Many(kinds) => is_list_of_types(kinds, types),
    }
}

fn is_one_type(kind: InstanceType, types: &Types) -> bool
    ensures { result ≡ same_types (Some (one_type kind)) (Some (types_view types.now)) }
{
    match types {
        Types::One(other) => same_type(kind, *other),
        Types::Many(_) => false,
    }
}

fn is_list_of_types(kinds: &Vec<InstanceType>, types: &Types) -> bool
    ensures { result ≡ same_types (Some (many_types kinds.now.items)) (Some (types_view types.now)) }
{
    match types {
        Types::One(_) => false,
        Types::Many(others) => same_lists(kinds, others),
    }
}

#[tactic(auto, using(crate::proofs::SeveralTypes::no_types_beside))]
fn has_types_of(given: GivenTypes<'_>, schema: &Schema) -> bool
    ensures { result ≡ same_types (Some (given_types_view given.entry)) (types_of_schema (Some (schema_view schema.now))) }
{
    match schema {
        Schema::Bool(_) => false,
        Schema::Object(object) => match &object.types {
            Some(types) => has_the_types(given, types),
            None => false,
        },
    }
}

#[tactic(auto, using(crate::proofs::SeveralTypes::no_types_beside))]
fn has_types_of_target(document: &Document, given: GivenTypes<'_>, reference: &str) -> bool
    ensures { result ≡ same_types (Some (given_types_view given.entry)) (target_types (document_seen document.now) (Some reference.now)) }
{
    match document.target(reference) {
        Some(schema) => has_types_of(given, schema),
        None => false,
    }
}

// Whether the types are those of what the reference leads to.
fn has_same_types(document: &Document, keywords: &Keywords<'_>, reference: &str) -> bool
    ensures { result ≡ same_types (plain_view keywords.now).types (target_types (document_seen document.now) (Some reference.now)) }
{
    match keywords.types {
        Some(given) => has_types_of_target(document, given, reference),
        None => false,
    }
}

/// A reference beside the types of what it leads to.
pub fn reference_of_type_line<'d>(
    alloc: Global,
    document: &Document,
    keywords: &Keywords<'d>,
) -> Result<Option<Box<Finding<'d>>>, AllocError>
    ensures { IfOk result (λ o. (r : Relations) → option_map (held_view r) o ≡ line (is_some (plain_view keywords.now).reference && same_types (plain_view keywords.now).types (target_types (document_seen document.now) (plain_view keywords.now).reference) && no_others_of (less_reference_of (plain_view keywords.now)) (lists_view keywords.now) (named_view keywords.now) && without_same (same_view keywords.now)) (plainly_as (reference_row (plain_view keywords.now).reference))) }
{
    match keywords.reference {
        Some(reference) => {
            if has_same_types(document, keywords, reference) && refers_at_most(keywords) {
                Ok(Some(hold(alloc, plainly(alloc, Row::Reference(reference)))?))
            } else {
                Ok(None)
            }
        }
        None => Ok(None),
    }
}
