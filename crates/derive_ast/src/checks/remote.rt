//! A remote type has its arguments, or the item has parameters (`check_remote_generic`).
//!
//! An item may stand for a remote type whatever its arguments are. Then it has the parameters itself, and
//! the path names the type alone:
//!
//!     #[serde(remote = "Pair")]
//!     struct PairDef<T> { first: T, second: T }
//!
//! Or it stands for the type at certain arguments. Then the path has these, and the item no parameters:
//!
//!     #[serde(remote = "Pair<u8>")]
//!     struct BytesDef { first: u8, second: u8 }
//!
//! An item with parameters whose path has arguments is told.
ghost use Rattle.std.specs.Prelude.{◌≡◌, ◌++◌, Some, not, map, OnOk, OnErr};
ghost use Rattle.syntax_trees.specs.Syntax.{has_no_arguments};
ghost use Rattle.syntax_trees.specs.View.{path_view, segment_view};
ghost use Rattle.syntax_trees.specs.Item.{param_view};
ghost use Rattle.attr_parts.specs.Diagnostics.{diagnostics};
ghost use Rattle.attr_parts.specs.Types.{path_segments};
ghost use Rattle.container_defs.specs.Checks.{has_params, last_has_arguments, remote_told, check_remote_generic};
ghost use Rattle.derive_ast.specs.Views.{container_view};

use crate::container::Container;
use attr_parts::{Ctxt, DiagKind, place_of_path};
use std::alloc::AllocError;
use syntax_trees::{Generics, Path, PathArguments, PathSegment};

// Whether the segment has arguments, be they none.
fn has_arguments(segment: &PathSegment) -> bool
    ensures { result ≡ not (has_no_arguments (segment_view segment.now)) }
{
    match segment.arguments {
        PathArguments::None => false,
        PathArguments::Angle { .. } => true,
        PathArguments::Paren { .. } => true,
    }
}

// Whether the last segment has.
fn ends_with_arguments(path: &Path) -> bool
    ensures { result ≡ last_has_arguments (path_segments (path_view path.now)) }
{
    match path.segments.last() {
        None => false,
        Some(segment) => has_arguments(segment),
    }
}

fn is_generic(generics: &Generics) -> bool
    ensures { result ≡ has_params (map param_view generics.now.params.items) }
{
    !generics.params.is_empty()
}

fn check_path(cx: &mut Ctxt, generics: &Generics, path: &Path) -> Result<(), AllocError>
    ensures ok { OnOk result (diagnostics cx.new ≡ diagnostics cx.old ++ remote_told (map param_view generics.now.params.items) (Some (path_view path.now))) }
    ensures err { OnErr result (diagnostics cx.new ≡ diagnostics cx.old) }
{
    if is_generic(generics) && ends_with_arguments(path) {
        return cx.error_spanned_by(place_of_path(path), DiagKind::RemoteGeneric);
    }
    Ok(())
}

/// Arguments of a remote type are told on an item with parameters.
pub(crate) fn check_remote(cx: &mut Ctxt, cont: &Container) -> Result<(), AllocError>
    ensures ok { OnOk result (diagnostics cx.new ≡ diagnostics cx.old ++ check_remote_generic (container_view cont.now)) }
    ensures err { OnErr result (diagnostics cx.new ≡ diagnostics cx.old) }
{
    match cont.attrs.remote() {
        Some(path) => check_path(cx, cont.generics, path),
        None => Ok(()),
    }
}
