//! `from` and `try_from` don't go together (`check_from_and_try_from`).
//!
//! Each names the type that is read and then converted, and one type alone can be:
//!
//!     #[serde(from = "u8", try_from = "u16")]
//!     struct Port(u16);
ghost use Rattle.std.specs.Prelude.{◌≡◌, ◌++◌, OnOk, OnErr};
ghost use Rattle.attr_parts.specs.Diagnostics.{diagnostics};
ghost use Rattle.container_defs.specs.Checks.{check_from_and_try_from};
ghost use Rattle.derive_ast.specs.Views.{container_view};

use crate::container::Container;
use attr_parts::{Ctxt, DiagKind, place_of_item};
use std::alloc::AllocError;

/// Both on one item are told.
pub(crate) fn check_conversions(cx: &mut Ctxt, cont: &Container) -> Result<(), AllocError>
    ensures ok { OnOk result (diagnostics cx.new ≡ diagnostics cx.old ++ check_from_and_try_from (container_view cont.now)) }
    ensures err { OnErr result (diagnostics cx.new ≡ diagnostics cx.old) }
{
    if cont.attrs.type_from().is_some() && cont.attrs.type_try_from().is_some() {
        return cx.error_spanned_by(place_of_item(cont.original), DiagKind::FromConflict);
    }
    Ok(())
}
