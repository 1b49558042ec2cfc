//! Getters stand in structs that stand for remote ones (`check_getter`).
//!
//! A getter reads a field of a remote struct that can't be reached by its name:
//!
//!     #[serde(remote = "Duration")]
//!     struct DurationDef { #[serde(getter = "Duration::as_secs")] secs: u64 }
//!
//! A struct that stands for itself has its fields at hand, and those of an enum are reached by its
//! variants. So a getter is told without `remote`, and in any enum.
ghost use Rattle.std.specs.Prelude.{◌≡◌, ◌++◌, OnOk, OnErr};
ghost use Rattle.attr_parts.specs.Diagnostics.{diagnostics};
ghost use Rattle.container_defs.specs.Checks.{check_getter};
ghost use Rattle.derive_ast.specs.Views.{container_view};

use crate::container::{Container, Data};
use attr_parts::{Ctxt, DiagKind, place_of_item};
use std::alloc::AllocError;

/// A getter is told in an enum, and in a struct that stands for none.
pub(crate) fn check_getters(cx: &mut Ctxt, cont: &Container) -> Result<(), AllocError>
    ensures ok { OnOk result (diagnostics cx.new ≡ diagnostics cx.old ++ check_getter (container_view cont.now)) }
    ensures err { OnErr result (diagnostics cx.new ≡ diagnostics cx.old) }
{
    if !cont.body.has_getter() {
        return Ok(());
    }
    match &cont.body {
        Data::Enum(_) => cx.error_spanned_by(place_of_item(cont.original), DiagKind::GetterEnum),
        Data::Struct(_, _) => {
            if cont.attrs.remote().is_some() {
                return Ok(());
            }
            cx.error_spanned_by(place_of_item(cont.original), DiagKind::GetterRemote)
        }
    }
}
