//! The ten checks of a container, in order (serde.rs, attributes; serde_derive's own errors).
//!
//! Each module says why its check is there, with an example, and which of serde_derive's it is.
ghost use Rattle.std.specs.Prelude.{◌≡◌, ◌++◌, OnOk, OnErr};
ghost use Rattle.attr_parts.specs.Diagnostics.{diagnostics, TellsFront};
ghost use Rattle.container_defs.specs.Checks.{checks_told, marked};
ghost use Rattle.derive_ast.specs.Views.{container_view};

mod conversions;
mod flatten;
mod getters;
mod identifiers;
mod remote;
mod skips;
mod tags;
mod transparent;
mod tuple_defaults;

use crate::container::Container;
use attr_parts::{Ctxt, Derive};
use std::alloc::AllocError;

// The checks in order.
fn check_ten(cx: &mut Ctxt, cont: &Container, derive: Derive) -> Result<(), AllocError>
    ensures ok { OnOk result (diagnostics cx.new ≡ diagnostics cx.old ++ checks_told derive (container_view cont.now)) }
    ensures err { OnErr result (TellsFront (diagnostics cx.old) (diagnostics cx.new) (checks_told derive (container_view cont.now))) }
{
    tuple_defaults::check_tuple_defaults(cx, cont)?;
    remote::check_remote(cx, cont)?;
    getters::check_getters(cx, cont)?;
    flatten::check_flattened(cx, cont)?;
    identifiers::check_identifiers(cx, cont)?;
    skips::check_skips(cx, cont)?;
    tags::check_tag_names(cx, cont)?;
    tags::check_same_tags(cx, cont)?;
    transparent::check_transparency(cx, cont, derive)?;
    conversions::check_conversions(cx, cont)?;
    Ok(())
}

/// Checks the container; what is wrong with it is appended to `cx` in order, and of a transparent struct the one field that
/// counts is marked. Where memory runs out, a front of that is appended, and nothing is marked.
pub fn check(cx: &mut Ctxt, cont: &mut Container, derive: Derive) -> Result<(), AllocError>
    ensures ok { OnOk result (diagnostics cx.new ≡ diagnostics cx.old ++ checks_told derive (container_view cont.old)) }
    ensures marked { OnOk result (container_view cont.new ≡ marked derive (container_view cont.old)) }
    ensures err { OnErr result (TellsFront (diagnostics cx.old) (diagnostics cx.new) (checks_told derive (container_view cont.old))) }
    ensures unmarked { OnErr result (container_view cont.new ≡ container_view cont.old) }
    ensures original { cont.new.original.now ≡ cont.old.original.now }
    ensures generics { cont.new.generics.now ≡ cont.old.generics.now }
{
    check_ten(cx, cont, derive)?;
    transparent::mark_transparent_field(cont, derive);
    Ok(())
}
