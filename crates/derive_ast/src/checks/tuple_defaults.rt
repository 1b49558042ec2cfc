//! In a tuple struct fields without a default stand before all that have one (`check_default_on_tuple`).
//!
//! A list is read into a tuple struct place by place, and a field takes its default where the list has
//! ended. Then the list has nothing for the fields after it either, so each of these needs a default:
//!
//!     struct Span(u32, #[serde(default)] u32, u32);
//!
//! Here the third field is told. A default of the whole struct serves every field, and a field that
//! isn't read has one anyway.
ghost use Rattle.std.specs.Prelude.{◌≡◌, ◌++◌, ◌&&◌, None, not, map, OnOk, OnErr};
ghost use Rattle.attr_parts.specs.Diagnostics.{diagnostics, TellsFront};
ghost use Rattle.container_defs.specs.Checks.{lacks, first_default, order_by, default_order_from, check_default_on_tuple};
ghost use Rattle.derive_ast.specs.Views.{field_view, container_view};

use crate::container::{Container, Data, Field};
use attr_parts::{Ctxt, DiagKind, place_of_type};
use container_defs::Style;
use std::alloc::AllocError;

// Whether the field has no default.
pub(crate) fn has_no_default(field: &Field) -> bool
    ensures { result ≡ lacks (field_view field.now) }
{
    field.attrs.default().is_none()
}

// Whether a default is asked of the field, where one stands before it.
fn is_asked(field: &Field) -> bool
    ensures { result ≡ (not (field_view field.now).attrs.skip_deserializing && lacks (field_view field.now)) }
{
    !field.attrs.skip_deserializing() && has_no_default(field)
}

// The number of the first field with a default, up to this one.
fn first_with_default(first: Option<usize>, index: usize, field: &Field) -> Option<usize>
    ensures { result ≡ first_default first index (field_view field.now) }
{
    match first {
        Some(number) => Some(number),
        None => {
            if field.attrs.skip_deserializing() || has_no_default(field) {
                None
            } else {
                Some(index)
            }
        }
    }
}

fn check_field(cx: &mut Ctxt, first: Option<usize>, field: &Field) -> Result<(), AllocError>
    ensures ok { OnOk result (diagnostics cx.new ≡ diagnostics cx.old ++ order_by first (field_view field.now)) }
    ensures err { OnErr result (diagnostics cx.new ≡ diagnostics cx.old) }
{
    match first {
        Some(number) => {
            if is_asked(field) {
                return cx.error_spanned_by(place_of_type(field.ty), DiagKind::DefaultOrder(number));
            }
            Ok(())
        }
        None => Ok(()),
    }
}

fn check_fields(cx: &mut Ctxt, fields: &[Field]) -> Result<(), AllocError>
    ensures ok { OnOk result (diagnostics cx.new ≡ diagnostics cx.old ++ default_order_from None 0 (map field_view fields.now)) }
    ensures err { OnErr result (TellsFront (diagnostics cx.old) (diagnostics cx.new) (default_order_from None 0 (map field_view fields.now))) }
{
    let mut first = None;
    for (index, field) in fields.iter().enumerate() {
        check_field(cx, first, field)?;
        first = first_with_default(first, index, field);
    }
    Ok(())
}

/// A field without a default behind one that has one is told, where the container has none.
#[tactic(auto, using(attr_parts::proofs::Steps::tells_none))]
pub(crate) fn check_tuple_defaults(cx: &mut Ctxt, cont: &Container) -> Result<(), AllocError>
    ensures ok { OnOk result (diagnostics cx.new ≡ diagnostics cx.old ++ check_default_on_tuple (container_view cont.now)) }
    ensures err { OnErr result (TellsFront (diagnostics cx.old) (diagnostics cx.new) (check_default_on_tuple (container_view cont.now))) }
{
    if !cont.attrs.default().is_none() {
        return Ok(());
    }
    match &cont.body {
        Data::Enum(_) => Ok(()),
        Data::Struct(Style::Tuple, fields) => check_fields(cx, fields),
        Data::Struct(Style::Struct, _) => Ok(()),
        Data::Struct(Style::Newtype, _) => Ok(()),
        Data::Struct(Style::Unit, _) => Ok(()),
    }
}
