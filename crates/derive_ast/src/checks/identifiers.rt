//! `other`, and the variants of identifiers (`check_identifier`).
//!
//! A variant that is `other` is what each name is read as that no variant has. So it comes last, and there
//! is no second one; and it is a unit variant. An enum without a tag reads no names, and has none.
//!
//! An identifier is read as a name and nothing else, so its variants are unit variants. In that of a
//! field the last may be a newtype, which takes the names that are left as `other` does, and keeps them:
//!
//!     #[serde(field_identifier)]
//!     enum Field { Id, Name, Unknown(String) }
//!
//! Were `Unknown` the first, it would be told. In that of a variant nothing is `other`.
ghost use Rattle.std.specs.Prelude.{◌≡◌, ◌++◌, true, false, map, option_map, string_bytes, IfOk, OnOk, OnErr};
ghost use Rattle.attr_parts.specs.Diagnostics.{diagnostics, kind_view, TellsFront};
ghost use Rattle.attr_parts.specs.Values.{tag_view};
ghost use Rattle.derive_attr.specs.ContainerView.{container_view as attrs_view};
ghost use Rattle.container_defs.specs.Checks.{is_untagged, identifier_case, told_maybe, at_variant, case_told, identifier_told, check_identifier};
ghost use Rattle.derive_ast.specs.Cases.{other_case, plain_case};
ghost use Rattle.derive_ast.specs.Views.{variant_view, container_view};

use crate::container::{Container, Data, Variant};
use attr_parts::{Ctxt, DiagKind, Identifier, TagType, place_of_variant};
use container_defs::Style;
use derive_attr::attr;
use std::alloc::AllocError;

fn is_untagged_type(tag: &TagType) -> bool
    ensures { result ≡ is_untagged (tag_view tag.now) }
{
    match tag {
        TagType::External => false,
        TagType::Internal { .. } => false,
        TagType::Adjacent { .. } => false,
        TagType::None => true,
    }
}

// What is wrong with a variant that stands for all others.
fn other_kind(
    identifier: Identifier,
    untagged: bool,
    is_last: bool,
    style: Style,
) -> Option<DiagKind>
    ensures { option_map kind_view result ≡ other_case identifier untagged is_last style }
{
    if let Identifier::Variant = identifier {
        return Some(DiagKind::OtherIdentifier);
    }
    if untagged && !identifier.is_some() {
        return Some(DiagKind::OtherUntagged);
    }
    if let Style::Unit = style {
        if is_last {
            return None;
        }
        return Some(DiagKind::OtherLast);
    }
    Some(DiagKind::OtherUnit)
}

// What is wrong with any other variant.
fn plain_kind(
    identifier: Identifier,
    is_last: bool,
    variant: &Variant,
) -> Result<Option<DiagKind>, AllocError>
    ensures { IfOk result (λ o. option_map kind_view o ≡ plain_case identifier is_last (variant_view variant.now).style (variant_view variant.now).name.text) }
{
    if let Style::Unit = variant.style {
        return Ok(None);
    }
    match identifier {
        Identifier::No => Ok(None),
        Identifier::Variant => Ok(Some(DiagKind::VariantIdUnit)),
        Identifier::Field => {
            if let Style::Newtype = variant.style {
                if is_last {
                    return Ok(None);
                }
                return Ok(Some(DiagKind::NewtypeLast(variant.ident.text.clone()?)));
            }
            Ok(Some(DiagKind::FieldIdUnit))
        }
    }
}

#[tactic(auto, using(crate::proofs::CasesOf::other_known, crate::proofs::CasesOf::plain_known))]
fn kind_of(
    attrs: &attr::Container,
    is_last: bool,
    variant: &Variant,
) -> Result<Option<DiagKind>, AllocError>
    ensures { IfOk result (λ o. option_map kind_view o ≡ identifier_case (attrs_view attrs.now).identifier (attrs_view attrs.now).tag is_last (variant_view variant.now).attrs.other (variant_view variant.now).style (variant_view variant.now).name.text) }
{
    if variant.attrs.other() {
        let untagged = is_untagged_type(attrs.tag());
        let kind = other_kind(attrs.identifier(), untagged, is_last, variant.style);
        return Ok(kind);
    }
    let kind = plain_kind(attrs.identifier(), is_last, variant)?;
    Ok(kind)
}

fn check_variant(
    cx: &mut Ctxt,
    attrs: &attr::Container,
    is_last: bool,
    variant: &Variant,
) -> Result<(), AllocError>
    ensures ok { OnOk result (diagnostics cx.new ≡ diagnostics cx.old ++ case_told (attrs_view attrs.now) is_last (variant_view variant.now)) }
    ensures err { OnErr result (diagnostics cx.new ≡ diagnostics cx.old) }
{
    match kind_of(attrs, is_last, variant)? {
        Some(kind) => cx.error_spanned_by(place_of_variant(variant.original), kind),
        None => Ok(()),
    }
}

fn check_variants(
    cx: &mut Ctxt,
    attrs: &attr::Container,
    variants: &[Variant],
) -> Result<(), AllocError>
    ensures ok { OnOk result (diagnostics cx.new ≡ diagnostics cx.old ++ identifier_told (attrs_view attrs.now) (map variant_view variants.now)) }
    ensures err { OnErr result (TellsFront (diagnostics cx.old) (diagnostics cx.new) (identifier_told (attrs_view attrs.now) (map variant_view variants.now))) }
{
    for (index, variant) in variants.iter().enumerate() {
        let is_last = index + 1 == variants.len();
        check_variant(cx, attrs, is_last, variant)?;
    }
    Ok(())
}

/// What is wrong with variants that stand for all others, and with those of identifiers, is told.
#[tactic(auto, using(attr_parts::proofs::Steps::tells_none))]
pub(crate) fn check_identifiers(cx: &mut Ctxt, cont: &Container) -> Result<(), AllocError>
    ensures ok { OnOk result (diagnostics cx.new ≡ diagnostics cx.old ++ check_identifier (container_view cont.now)) }
    ensures err { OnErr result (TellsFront (diagnostics cx.old) (diagnostics cx.new) (check_identifier (container_view cont.now))) }
{
    match &cont.body {
        Data::Enum(variants) => check_variants(cx, &cont.attrs, variants),
        Data::Struct(_, _) => Ok(()),
    }
}
