//! What is flattened has a name (`check_flatten`).
//!
//! The members of a flattened field stand among the members of what holds it. Where fields have no names
//! there are no such members:
//!
//!     struct Outer(#[serde(flatten)] Inner);
//!
//! So it is told in a newtype and in a tuple, of a struct or of a variant.
ghost use Rattle.std.specs.Prelude.{◌≡◌, ◌++◌, map, OnOk, OnErr};
ghost use Rattle.std.specs.List.{flat_map};
ghost use Rattle.attr_parts.specs.Diagnostics.{diagnostics, TellsFront};
ghost use Rattle.container_defs.specs.Checks.{at_field, flatten_by, flatten_told, flatten_in, check_flatten};
ghost use Rattle.derive_ast.specs.Views.{field_view, variant_view, data_view, container_view};

use crate::container::{Container, Data, Field, Variant};
use attr_parts::{Ctxt, DiagKind, place_of_field};
use container_defs::Style;
use std::alloc::AllocError;

// A field of that style.
fn check_field(cx: &mut Ctxt, style: Style, field: &Field) -> Result<(), AllocError>
    ensures ok { OnOk result (diagnostics cx.new ≡ diagnostics cx.old ++ flatten_by style (field_view field.now).attrs.flatten (at_field (field_view field.now))) }
    ensures err { OnErr result (diagnostics cx.new ≡ diagnostics cx.old) }
{
    if !field.attrs.flatten() {
        return Ok(());
    }
    match style {
        Style::Struct => Ok(()),
        Style::Tuple => {
            cx.error_spanned_by(place_of_field(field.original), DiagKind::FlattenTuple)
        }
        Style::Newtype => {
            cx.error_spanned_by(place_of_field(field.original), DiagKind::FlattenNewtype)
        }
        Style::Unit => Ok(()),
    }
}

fn check_fields(cx: &mut Ctxt, style: Style, fields: &[Field]) -> Result<(), AllocError>
    ensures ok { OnOk result (diagnostics cx.new ≡ diagnostics cx.old ++ flatten_told style (map field_view fields.now)) }
    ensures err { OnErr result (TellsFront (diagnostics cx.old) (diagnostics cx.new) (flatten_told style (map field_view fields.now))) }
{
    for field in fields {
        check_field(cx, style, field)?;
    }
    Ok(())
}

fn check_variant(cx: &mut Ctxt, variant: &Variant) -> Result<(), AllocError>
    ensures ok { OnOk result (diagnostics cx.new ≡ diagnostics cx.old ++ flatten_told (variant_view variant.now).style (variant_view variant.now).fields) }
    ensures err { OnErr result (TellsFront (diagnostics cx.old) (diagnostics cx.new) (flatten_told (variant_view variant.now).style (variant_view variant.now).fields)) }
{
    check_fields(cx, variant.style, &variant.fields)
}

fn check_variants(cx: &mut Ctxt, variants: &[Variant]) -> Result<(), AllocError>
    ensures ok { OnOk result (diagnostics cx.new ≡ diagnostics cx.old ++ flat_map (λ v. flatten_told v.style v.fields) (map variant_view variants.now)) }
    ensures err { OnErr result (TellsFront (diagnostics cx.old) (diagnostics cx.new) (flat_map (λ v. flatten_told v.style v.fields) (map variant_view variants.now))) }
{
    for variant in variants {
        check_variant(cx, variant)?;
    }
    Ok(())
}

/// Flattened fields without names are told.
pub(crate) fn check_flattened(cx: &mut Ctxt, cont: &Container) -> Result<(), AllocError>
    ensures ok { OnOk result (diagnostics cx.new ≡ diagnostics cx.old ++ check_flatten (container_view cont.now)) }
    ensures err { OnErr result (TellsFront (diagnostics cx.old) (diagnostics cx.new) (check_flatten (container_view cont.now))) }
{
    match &cont.body {
        Data::Enum(variants) => check_variants(cx, variants),
        Data::Struct(style, fields) => check_fields(cx, *style, fields),
    }
}
