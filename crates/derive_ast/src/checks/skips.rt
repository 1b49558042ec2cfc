//! A variant with a function of its own skips nothing in that direction (`check_variant_skip_attrs`).
//!
//! The function writes, or reads, the variant with all its fields. That one of them is skipped it wouldn't
//! know:
//!
//!     enum Shape {
//!         #[serde(serialize_with = "write_circle")]
//!         Circle { #[serde(skip_serializing)] radius: u32 },
//!     }
//!
//! So beside `serialize_with` are told `skip_serializing` of the variant or a field and
//! `skip_serializing_if` of a field, and beside `deserialize_with` is told `skip_deserializing` of either.
ghost use Rattle.std.specs.Prelude.{◌≡◌, ◌++◌, codes, map, is_some, string_bytes, IfOk, OnOk, OnErr};
ghost use Rattle.std.specs.Fmt.{decimal};
ghost use Rattle.std.specs.List.{flat_map};
ghost use Rattle.syntax_trees.specs.View.{member_view};
ghost use Rattle.attr_parts.specs.Diagnostics.{diagnostics, TellsFront, skip_ser, skip_ser_field, skip_if_field, skip_de, skip_de_field};
ghost use Rattle.container_defs.specs.Checks.{told_if, at_variant, member_text, skip_ser_told, skip_de_told, written_by_function, read_by_function, variant_skips_told, check_variant_skip_attrs};
ghost use Rattle.derive_ast.specs.Views.{field_view, variant_view, container_view};

use crate::container::{Container, Data, Field, Variant};
use attr_parts::{Ctxt, DiagKind, place_of_variant};
use std::alloc::{AllocError, Global};
use syntax_trees::Member;

// The name between backquotes.
fn quoted(alloc: Global, name: &str) -> Result<String, AllocError>
    ensures { IfOk result (λ s. string_bytes s ≡ codes "`" ++ name.now ++ codes "`") }
{
    let mut text = String::from_str(alloc, "`")?;
    text.push_str(name)?;
    text.push_str("`")?;
    Ok(text)
}

// The number behind `#`.
fn numbered(alloc: Global, number: u32) -> Result<String, AllocError>
    ensures { IfOk result (λ s. string_bytes s ≡ codes "#" ++ decimal number) }
{
    format!(in alloc; "#{number}")
}

// A field as diagnostics name it.
fn text_of_member(alloc: Global, member: &Member) -> Result<String, AllocError>
    ensures { IfOk result (λ s. string_bytes s ≡ member_text (member_view member.now)) }
{
    match member {
        Member::Named(name) => quoted(alloc, &name.text),
        Member::Unnamed(number) => numbered(alloc, *number),
    }
}

// A field of a variant that is written by a function: it is skipped.
fn tell_skipped(cx: &mut Ctxt, variant: &Variant, field: &Field) -> Result<(), AllocError>
    ensures ok { OnOk result (diagnostics cx.new ≡ diagnostics cx.old ++ told_if (field_view field.now).attrs.skip_serializing (skip_ser_field (variant_view variant.now).name.text (member_text (field_view field.now).member)) (at_variant (variant_view variant.now))) }
    ensures err { OnErr result (diagnostics cx.new ≡ diagnostics cx.old) }
{
    if !field.attrs.skip_serializing() {
        return Ok(());
    }
    let alloc = *variant.ident.text.allocator();
    let name = variant.ident.text.clone()?;
    let member = text_of_member(alloc, &field.member)?;
    cx.error_spanned_by(
        place_of_variant(variant.original),
        DiagKind::SkipSerField(name, member),
    )
}

// It is skipped under a condition.
fn tell_skipped_if(cx: &mut Ctxt, variant: &Variant, field: &Field) -> Result<(), AllocError>
    ensures ok { OnOk result (diagnostics cx.new ≡ diagnostics cx.old ++ told_if (is_some (field_view field.now).attrs.skip_serializing_if) (skip_if_field (variant_view variant.now).name.text (member_text (field_view field.now).member)) (at_variant (variant_view variant.now))) }
    ensures err { OnErr result (diagnostics cx.new ≡ diagnostics cx.old) }
{
    if field.attrs.skip_serializing_if().is_none() {
        return Ok(());
    }
    let alloc = *variant.ident.text.allocator();
    let name = variant.ident.text.clone()?;
    let member = text_of_member(alloc, &field.member)?;
    cx.error_spanned_by(
        place_of_variant(variant.original),
        DiagKind::SkipIfField(name, member),
    )
}

// A field of a variant that is read by a function: it is skipped.
fn tell_unread(cx: &mut Ctxt, variant: &Variant, field: &Field) -> Result<(), AllocError>
    ensures ok { OnOk result (diagnostics cx.new ≡ diagnostics cx.old ++ skip_de_told (variant_view variant.now) (field_view field.now)) }
    ensures err { OnErr result (diagnostics cx.new ≡ diagnostics cx.old) }
{
    if !field.attrs.skip_deserializing() {
        return Ok(());
    }
    let alloc = *variant.ident.text.allocator();
    let name = variant.ident.text.clone()?;
    let member = text_of_member(alloc, &field.member)?;
    cx.error_spanned_by(
        place_of_variant(variant.original),
        DiagKind::SkipDeField(name, member),
    )
}

#[tactic(auto, using(attr_parts::proofs::Steps::tells_none, attr_parts::proofs::Steps::tells_later))]
fn check_written_field(cx: &mut Ctxt, variant: &Variant, field: &Field) -> Result<(), AllocError>
    ensures ok { OnOk result (diagnostics cx.new ≡ diagnostics cx.old ++ skip_ser_told (variant_view variant.now) (field_view field.now)) }
    ensures err { OnErr result (TellsFront (diagnostics cx.old) (diagnostics cx.new) (skip_ser_told (variant_view variant.now) (field_view field.now))) }
{
    tell_skipped(cx, variant, field)?;
    tell_skipped_if(cx, variant, field)?;
    Ok(())
}

fn check_written_fields(
    cx: &mut Ctxt,
    variant: &Variant,
    fields: &[Field],
) -> Result<(), AllocError>
    ensures ok { OnOk result (diagnostics cx.new ≡ diagnostics cx.old ++ flat_map (skip_ser_told (variant_view variant.now)) (map field_view fields.now)) }
    ensures err { OnErr result (TellsFront (diagnostics cx.old) (diagnostics cx.new) (flat_map (skip_ser_told (variant_view variant.now)) (map field_view fields.now))) }
{
    for field in fields {
        check_written_field(cx, variant, field)?;
    }
    Ok(())
}

fn check_read_fields(cx: &mut Ctxt, variant: &Variant, fields: &[Field]) -> Result<(), AllocError>
    ensures ok { OnOk result (diagnostics cx.new ≡ diagnostics cx.old ++ flat_map (skip_de_told (variant_view variant.now)) (map field_view fields.now)) }
    ensures err { OnErr result (TellsFront (diagnostics cx.old) (diagnostics cx.new) (flat_map (skip_de_told (variant_view variant.now)) (map field_view fields.now))) }
{
    for field in fields {
        tell_unread(cx, variant, field)?;
    }
    Ok(())
}

fn tell_skipped_variant(cx: &mut Ctxt, variant: &Variant) -> Result<(), AllocError>
    ensures ok { OnOk result (diagnostics cx.new ≡ diagnostics cx.old ++ told_if (variant_view variant.now).attrs.skip_serializing (skip_ser (variant_view variant.now).name.text) (at_variant (variant_view variant.now))) }
    ensures err { OnErr result (diagnostics cx.new ≡ diagnostics cx.old) }
{
    if !variant.attrs.skip_serializing() {
        return Ok(());
    }
    let name = variant.ident.text.clone()?;
    cx.error_spanned_by(place_of_variant(variant.original), DiagKind::SkipSer(name))
}

fn tell_unread_variant(cx: &mut Ctxt, variant: &Variant) -> Result<(), AllocError>
    ensures ok { OnOk result (diagnostics cx.new ≡ diagnostics cx.old ++ told_if (variant_view variant.now).attrs.skip_deserializing (skip_de (variant_view variant.now).name.text) (at_variant (variant_view variant.now))) }
    ensures err { OnErr result (diagnostics cx.new ≡ diagnostics cx.old) }
{
    if !variant.attrs.skip_deserializing() {
        return Ok(());
    }
    let name = variant.ident.text.clone()?;
    cx.error_spanned_by(place_of_variant(variant.original), DiagKind::SkipDe(name))
}

#[tactic(auto, using(attr_parts::proofs::Steps::tells_none, attr_parts::proofs::Steps::tells_later))]
fn check_written(cx: &mut Ctxt, variant: &Variant) -> Result<(), AllocError>
    ensures ok { OnOk result (diagnostics cx.new ≡ diagnostics cx.old ++ written_by_function (variant_view variant.now)) }
    ensures err { OnErr result (TellsFront (diagnostics cx.old) (diagnostics cx.new) (written_by_function (variant_view variant.now))) }
{
    tell_skipped_variant(cx, variant)?;
    check_written_fields(cx, variant, &variant.fields)?;
    Ok(())
}

#[tactic(auto, using(attr_parts::proofs::Steps::tells_none, attr_parts::proofs::Steps::tells_later))]
fn check_read(cx: &mut Ctxt, variant: &Variant) -> Result<(), AllocError>
    ensures ok { OnOk result (diagnostics cx.new ≡ diagnostics cx.old ++ read_by_function (variant_view variant.now)) }
    ensures err { OnErr result (TellsFront (diagnostics cx.old) (diagnostics cx.new) (read_by_function (variant_view variant.now))) }
{
    tell_unread_variant(cx, variant)?;
    check_read_fields(cx, variant, &variant.fields)?;
    Ok(())
}

#[tactic(auto, using(attr_parts::proofs::Steps::tells_none, attr_parts::proofs::Steps::tells_later))]
fn check_variant(cx: &mut Ctxt, variant: &Variant) -> Result<(), AllocError>
    ensures ok { OnOk result (diagnostics cx.new ≡ diagnostics cx.old ++ variant_skips_told (variant_view variant.now)) }
    ensures err { OnErr result (TellsFront (diagnostics cx.old) (diagnostics cx.new) (variant_skips_told (variant_view variant.now))) }
{
    if variant.attrs.serialize_with().is_some() {
        check_written(cx, variant)?;
    }
    if variant.attrs.deserialize_with().is_some() {
        check_read(cx, variant)?;
    }
    Ok(())
}

fn check_variants(cx: &mut Ctxt, variants: &[Variant]) -> Result<(), AllocError>
    ensures ok { OnOk result (diagnostics cx.new ≡ diagnostics cx.old ++ flat_map variant_skips_told (map variant_view variants.now)) }
    ensures err { OnErr result (TellsFront (diagnostics cx.old) (diagnostics cx.new) (flat_map variant_skips_told (map variant_view variants.now))) }
{
    for variant in variants {
        check_variant(cx, variant)?;
    }
    Ok(())
}

/// What a variant with a function of its own skips in that direction is told.
#[tactic(auto, using(attr_parts::proofs::Steps::tells_none))]
pub(crate) fn check_skips(cx: &mut Ctxt, cont: &Container) -> Result<(), AllocError>
    ensures ok { OnOk result (diagnostics cx.new ≡ diagnostics cx.old ++ check_variant_skip_attrs (container_view cont.now)) }
    ensures err { OnErr result (TellsFront (diagnostics cx.old) (diagnostics cx.new) (check_variant_skip_attrs (container_view cont.now))) }
{
    match &cont.body {
        Data::Enum(variants) => check_variants(cx, variants),
        Data::Struct(_, _) => Ok(()),
    }
}
