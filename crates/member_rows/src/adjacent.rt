//! The adjacent shape: the content of a variant stands beside its tag.
ghost use Rattle.std.specs.Prelude.{◌≡◌, IfOk, map};
ghost use Rattle.convert_defs.specs.Shapes.{adjacent_variant as adjacent_variant_of, body_of_field as body_of_field_of};
ghost use Rattle.row_findings.specs.View.{field_view, body_view, variant_view};
ghost use Rattle.member_rows.specs.Members.{member_view};

use crate::internal::fields_beside;
use crate::members::Member;
use crate::tagged::tag_text;
use row_findings::{FieldRow, VariantBody, VariantRow};
use schema_types::Setting;
use std::alloc::{AllocError, Global};

fn body_of_field<'d>(fields: Vec<FieldRow<'d>>) -> VariantBody<'d>
    ensures { body_view result ≡ body_of_field_of (map field_view fields.entry.items) }
{
    let mut left = fields.into_iter();
    match left.next() {
        Some(field) => VariantBody::Part(field.part),
        None => VariantBody::Unit,
    }
}

fn adjacent_variant<'d>(
    alloc: Global,
    member: &Member<'d>,
    tag: &str,
) -> Result<VariantRow<'d>, AllocError>
    ensures { IfOk result (λ w. variant_view w ≡ adjacent_variant_of tag.now (member_view member.now)) }
{
    let fields = fields_beside(alloc, Setting::Strict, member, tag)?;
    Ok(VariantRow {
        name: tag_text(member.schema, tag),
        body: body_of_field(fields),
    })
}

/// A variant for each member, named by its tag, with the other property as its content.
pub fn adjacent_variants<'d>(
    alloc: Global,
    members: &[Member<'d>],
    tag: &str,
) -> Result<Vec<VariantRow<'d>>, AllocError>
    ensures { IfOk result (λ v. map variant_view v.items ≡ map (adjacent_variant_of tag.now) (map member_view members.now)) }
{
    let mut variants = Vec::new(alloc);
    for member in members {
        variants.push(adjacent_variant(alloc, member, tag)?)?;
    }
    Ok(variants)
}
