//! The parts of a row, in the order of conversion.
ghost use Rattle.std.specs.Prelude.{◌≡◌, ◌∷◌, ◌++◌, [], IfOk, OnOk, map, option_map};
ghost use Rattle.schema_defs.specs.Texts.{Relations};
ghost use Rattle.convert_defs.specs.Row.{row_parts, field_parts, outside_parts, further_parts, body_parts, variants_parts};
ghost use Rattle.row_findings.specs.View.{part_view, field_view, outside_view, body_view, variant_view, row_view};

use row_findings::{FieldRow, OutsideRow, Part, Row, VariantBody, VariantRow};
use std::alloc::{AllocError, Global};

/// The parts that the row converts, in the order of conversion.
pub fn parts_of_row<'r, 'd>(
    alloc: Global,
    row: &'r Row<'d>,
) -> Result<Vec<&'r Part<'d>>, AllocError>
    ensures { IfOk result (λ v. (r : Relations) → map (λ p. part_view p.now) v.items ≡ row_parts (row_view r row.now)) }
{
    let mut parts = Vec::new(alloc);
    match row {
        Row::Leaf(_) => Ok(parts),
        Row::Reference(_) => Ok(parts),
        Row::AsItIs(part) => {
            parts.push(part)?;
            Ok(parts)
        }
        Row::Option(part) => {
            parts.push(part)?;
            Ok(parts)
        }
        Row::Ruled(part, _) => {
            parts.push(part)?;
            Ok(parts)
        }
        Row::Vec(part) => {
            parts.push(part)?;
            Ok(parts)
        }
        Row::Set(part) => {
            parts.push(part)?;
            Ok(parts)
        }
        Row::Array(part, _) => {
            parts.push(part)?;
            Ok(parts)
        }
        Row::Tuple { listed, more, rest } => {
            push_listed(listed, &mut parts)?;
            push_further(*more, rest, &mut parts)?;
            Ok(parts)
        }
        Row::Map(keys, values) => {
            parts.push(keys)?;
            parts.push(values)?;
            Ok(parts)
        }
        Row::PatternMap(_, part) => {
            parts.push(part)?;
            Ok(parts)
        }
        Row::Struct {
            fields,
            outside,
            ..
        } => {
            push_fields(fields, &mut parts)?;
            push_outside(outside, &mut parts)?;
            Ok(parts)
        }
        Row::Enum { variants, .. } => {
            push_variants(variants, &mut parts)?;
            Ok(parts)
        }
        Row::Merged(_) => Ok(parts),
        Row::Refused(_) => Ok(parts),
    }
}

fn push_listed<'r, 'd>(
    listed: &'r Vec<Part<'d>>,
    parts: &mut Vec<&'r Part<'d>>,
) -> Result<(), AllocError>
    ensures { OnOk result (map (λ p. part_view p.now) parts.new.items ≡ map (λ p. part_view p.now) parts.old.items ++ map part_view listed.now.items) }
{
    for part in listed {
        parts.push(part)?;
    }
    Ok(())
}

// One part, where there is a place of it.
fn push_further<'r, 'd>(
    more: u32,
    rest: &'r Part<'d>,
    parts: &mut Vec<&'r Part<'d>>,
) -> Result<(), AllocError>
    ensures { OnOk result (map (λ p. part_view p.now) parts.new.items ≡ map (λ p. part_view p.now) parts.old.items ++ further_parts more (part_view rest.now)) }
{
    if more == 0 {
        return Ok(());
    }
    parts.push(rest)?;
    Ok(())
}

fn push_fields<'r, 'd>(
    fields: &'r Vec<FieldRow<'d>>,
    parts: &mut Vec<&'r Part<'d>>,
) -> Result<(), AllocError>
    ensures { OnOk result (map (λ p. part_view p.now) parts.new.items ≡ map (λ p. part_view p.now) parts.old.items ++ field_parts (map field_view fields.now.items)) }
{
    for field in fields {
        parts.push(&field.part)?;
    }
    Ok(())
}

fn push_outside<'r, 'd>(
    outside: &'r Option<OutsideRow<'d>>,
    parts: &mut Vec<&'r Part<'d>>,
) -> Result<(), AllocError>
    ensures { OnOk result (map (λ p. part_view p.now) parts.new.items ≡ map (λ p. part_view p.now) parts.old.items ++ outside_parts (option_map outside_view outside.now)) }
{
    match outside {
        Some(outside) => {
            parts.push(&outside.part)?;
            Ok(())
        }
        None => Ok(()),
    }
}

fn push_body<'r, 'd>(
    body: &'r VariantBody<'d>,
    parts: &mut Vec<&'r Part<'d>>,
) -> Result<(), AllocError>
    ensures { OnOk result (map (λ p. part_view p.now) parts.new.items ≡ map (λ p. part_view p.now) parts.old.items ++ body_parts (body_view body.now)) }
{
    match body {
        VariantBody::Unit => Ok(()),
        VariantBody::Part(part) => {
            parts.push(part)?;
            Ok(())
        }
        VariantBody::Fields(fields) => push_fields(fields, parts),
    }
}

fn push_variants<'r, 'd>(
    variants: &'r Vec<VariantRow<'d>>,
    parts: &mut Vec<&'r Part<'d>>,
) -> Result<(), AllocError>
    ensures { OnOk result (map (λ p. part_view p.now) parts.new.items ≡ map (λ p. part_view p.now) parts.old.items ++ variants_parts (map variant_view variants.now.items)) }
{
    for variant in variants {
        push_body(&variant.body, parts)?;
    }
    Ok(())
}
