//! Lists of types: all of them, one, or several.
ghost use Rattle.std.specs.Prelude.{◌≡◌, ◌&&◌, ◌++◌, not, is_some, Some, [], ◌∷◌, IfOk, map, filter, option_map, if◌then◌else◌};
ghost use Rattle.std.specs.List.{list_all};
ghost use Rattle.schema_defs.specs.declared.InstanceType.{InstanceType};
ghost use Rattle.schema_defs.specs.declared.InstanceType.TheVariants.{Number};
ghost use Rattle.schema_defs.specs.Schema.{object};
ghost use Rattle.schema_defs.specs.Texts.{Relations};
ghost use Rattle.enum_defs.specs.Words.{is_bare as is_bare_of};
ghost use Rattle.model_defs.specs.Model.{untagged};
ghost use Rattle.convert_defs.specs.Row.{plainly as plainly_as, as_it_is_row, enum_row, by_contents, made as made_of};
ghost use Rattle.convert_defs.specs.Standing.{less_types as less_types_of};
ghost use Rattle.convert_defs.specs.Table.{type_among as type_among_of, every_type, only_type as only_type_of, with_type, many_of, of_kinds as of_kinds_in, type_variant as type_variant_of, type_variants as type_variants_of};
ghost use Rattle.row_findings.specs.Given.{plain_view, same_view, lists_view, named_view, keywords_view};
ghost use Rattle.row_findings.specs.View.{row_view, variant_view};
ghost use Rattle.type_rows.specs.Line.{held_view, line, variant_if};

use crate::line::hold;
use row_findings::{
    Closing, Finding, GivenTypes, Keywords, Part, Row, Source, TagRow, VariantBody, VariantRow,
    is_bare, less_types, made, no_keyword, of_type, only_type, plainly, type_among,
};
use schema_types::InstanceType;
use std::alloc::{AllocError, Global};

fn has_half(keywords: &Keywords<'_>) -> bool
    ensures { result ≡ (type_among_of InstanceType.Null (plain_view keywords.now).types && type_among_of InstanceType.Boolean (plain_view keywords.now).types && type_among_of InstanceType.Object (plain_view keywords.now).types && type_among_of InstanceType.Array (plain_view keywords.now).types) }
{
    type_among(keywords, InstanceType::Null)
        && type_among(keywords, InstanceType::Boolean)
        && type_among(keywords, InstanceType::Object)
        && type_among(keywords, InstanceType::Array)
}

fn has_rest(keywords: &Keywords<'_>) -> bool
    ensures { result ≡ (type_among_of InstanceType.Number (plain_view keywords.now).types && type_among_of InstanceType.Text (plain_view keywords.now).types && type_among_of InstanceType.Integer (plain_view keywords.now).types) }
{
    type_among(keywords, InstanceType::Number)
        && type_among(keywords, InstanceType::Text)
        && type_among(keywords, InstanceType::Integer)
}

#[tactic(auto, using(crate::proofs::SeveralTypes::seven_types))]
fn has_every_type(keywords: &Keywords<'_>) -> bool
    ensures { result ≡ list_all (λ k. type_among_of k (plain_view keywords.now).types) every_type }
{
    has_half(keywords) && has_rest(keywords)
}

/// All types: the schema without them.
pub fn every_type_line<'d>(
    alloc: Global,
    keywords: &Keywords<'d>,
) -> Result<Option<Box<Finding<'d>>>, AllocError>
    ensures { IfOk result (λ o. (r : Relations) → option_map (held_view r) o ≡ line (list_all (λ k. type_among_of k (plain_view keywords.now).types) every_type) (plainly_as (as_it_is_row (made_of (object (less_types_of (plain_view keywords.now)) (same_view keywords.now) (lists_view keywords.now) (named_view keywords.now)))))) }
{
    if !has_every_type(keywords) {
        return Ok(None);
    }
    let part = made(alloc, less_types(keywords))?;
    Ok(Some(hold(alloc, plainly(alloc, Row::AsItIs(part)))?))
}

/// A list of one type: the schema with that type.
pub fn only_type_line<'d>(
    alloc: Global,
    keywords: &Keywords<'d>,
) -> Result<Option<Box<Finding<'d>>>, AllocError>
    ensures { IfOk result (λ o. (r : Relations) → option_map (held_view r) o ≡ line (is_some (only_type_of (plain_view keywords.now).types)) (plainly_as (with_type (plain_view keywords.now) (same_view keywords.now) (lists_view keywords.now) (named_view keywords.now) (only_type_of (plain_view keywords.now).types)))) }
{
    match only_type(keywords) {
        Some(kind) => {
            let part = made(alloc, of_type(keywords, kind))?;
            Ok(Some(hold(alloc, plainly(alloc, Row::AsItIs(part)))?))
        }
        None => Ok(None),
    }
}

// ---- several types

// The keywords of values of that type.
fn of_kinds<'d>(keywords: &Keywords<'d>, kind: InstanceType) -> Keywords<'d>
    ensures { keywords_view result ≡ of_kinds_in (plain_view keywords.now) (lists_view keywords.now) (named_view keywords.now) kind }
{
    let nothing = of_type(&no_keyword(), kind);
    match kind {
        InstanceType::Object => Keywords {
            members: keywords.members,
            ..nothing
        },
        InstanceType::Array => Keywords {
            lists: keywords.lists,
            ..nothing
        },
        InstanceType::Integer => Keywords {
            numbers: keywords.numbers,
            format: keywords.format,
            ..nothing
        },
        InstanceType::Text => Keywords {
            texts: keywords.texts,
            format: keywords.format,
            ..nothing
        },
        InstanceType::Null => nothing,
        InstanceType::Boolean => nothing,
        InstanceType::Number => nothing,
    }
}

fn type_variant<'d>(
    alloc: Global,
    keywords: &Keywords<'d>,
    kind: InstanceType,
) -> Result<VariantRow<'d>, AllocError>
    ensures { IfOk result (λ w. variant_view w ≡ type_variant_of (plain_view keywords.now) (lists_view keywords.now) (named_view keywords.now) kind) }
{
    let part = made(alloc, of_kinds(keywords, kind))?;
    Ok(VariantRow {
        name: None,
        body: VariantBody::Part(part),
    })
}

// The variants, and then that of the type, where it is among the types.
fn with_variant<'d>(
    alloc: Global,
    variants: Vec<VariantRow<'d>>,
    keywords: &Keywords<'d>,
    kind: InstanceType,
) -> Result<Vec<VariantRow<'d>>, AllocError>
    ensures { IfOk result (λ v. map variant_view v.items ≡ map variant_view variants.entry.items ++ variant_if (plain_view keywords.now) (lists_view keywords.now) (named_view keywords.now) kind) }
{
    let mut variants = variants;
    if !type_among(keywords, kind) {
        return Ok(variants);
    }
    let variant = type_variant(alloc, keywords, kind)?;
    variants.push(variant)?;
    Ok(variants)
}

// A variant for each type, in this order.
fn type_variants<'d>(
    alloc: Global,
    keywords: &Keywords<'d>,
) -> Result<Vec<VariantRow<'d>>, AllocError>
    ensures { IfOk result (λ v. map variant_view v.items ≡ type_variants_of (plain_view keywords.now) (lists_view keywords.now) (named_view keywords.now)) }
{
    let nulls = with_variant(alloc, Vec::new(alloc), keywords, InstanceType::Null)?;
    let booleans = with_variant(alloc, nulls, keywords, InstanceType::Boolean)?;
    let objects = with_variant(alloc, booleans, keywords, InstanceType::Object)?;
    let arrays = with_variant(alloc, objects, keywords, InstanceType::Array)?;
    let integers = with_variant(alloc, arrays, keywords, InstanceType::Integer)?;
    let texts = with_variant(alloc, integers, keywords, InstanceType::Text)?;
    Ok(texts)
}

fn has_many_types(keywords: &Keywords<'_>) -> bool
    ensures { result ≡ is_some (many_of (plain_view keywords.now).types) }
{
    match keywords.types {
        Some(GivenTypes::One(_)) => false,
        Some(GivenTypes::Many(_)) => true,
        None => false,
    }
}

/// Several types, and none of them that of all numbers: an untagged enum of the keywords of each.
pub fn one_of_types_line<'d>(
    alloc: Global,
    keywords: &Keywords<'d>,
) -> Result<Option<Box<Finding<'d>>>, AllocError>
    ensures { IfOk result (λ o. (r : Relations) → option_map (held_view r) o ≡ line (is_some (many_of (plain_view keywords.now).types) && is_bare_of (plain_view keywords.now) (same_view keywords.now) && not (type_among_of InstanceType.Number (plain_view keywords.now).types)) (plainly_as (enum_row untagged by_contents (type_variants_of (plain_view keywords.now) (lists_view keywords.now) (named_view keywords.now))))) }
{
    if has_many_types(keywords)
        && is_bare(keywords)
        && !type_among(keywords, InstanceType::Number)
    {
        let variants = type_variants(alloc, keywords)?;
        let row = Row::Enum {
            tag: TagRow::Untagged,
            closing: Closing::ByContents,
            variants,
        };
        Ok(Some(hold(alloc, plainly(alloc, row))?))
    } else {
        Ok(None)
    }
}
