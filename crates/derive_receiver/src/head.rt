//! The first segment of a path, where it is `Self`.
ghost use Rattle.std.specs.Prelude.{◌≡◌, IfOk, map, true, false};
ghost use Rattle.syntax_trees.specs.View.{path_view, segment_view, arguments_view, maybe_qself_view};
ghost use Rattle.syntax_trees.specs.Syntax.{path, segments_of, expr_path, qself, no_qself, some_qself};
ghost use Rattle.derive_receiver.specs.Own.{own_ty};
ghost use Rattle.derive_receiver.specs.Replaced.{is_self, turbofish_at, instead, headed};
ghost use Rattle.derive_receiver.specs.View.{own_view, place_view};

use crate::own::Receiver;
use std::alloc::{AllocError, Global};
use syntax_trees::{Path, PathArguments, PathSegment, QSelf};
use token_trees::{Span, Symbol};

const SELF: Symbol = Symbol("Self");

// A path with its qualified self.
#[derive(Drop)]
pub(crate) struct Place {
    pub(crate) qself: Option<Box<QSelf>>,
    pub(crate) path: Path,
}

fn is_named_self(segment: &PathSegment) -> bool
    ensures { result ≡ is_self (segment_view segment.now) }
{
    segment.ident.is(SELF)
}

// Whether `::` stands before the arguments that take the place of these.
fn needs_turbofish(is_ty: bool, arguments: &PathArguments) -> bool
    ensures { result ≡ turbofish_at is_ty (arguments_view arguments.now) }
{
    match arguments {
        PathArguments::None => !is_ty,
        PathArguments::Angle { .. } => true,
        PathArguments::Paren { .. } => true,
    }
}

// The item's own type, and these segments behind it.
fn below(
    alloc: Global,
    own: &Receiver,
    at: Span,
    rest: Vec<PathSegment>,
) -> Result<Place, AllocError>
    ensures { IfOk result (λ p. place_view p ≡ expr_path (some_qself (qself (own_ty at (own_view own.now)) 0)) (path true (segments_of (map segment_view rest.items)))) }
{
    let qself = QSelf {
        ty: own.ty(alloc, at)?,
        position: 0,
    };
    Ok(Place {
        qself: Some(Box::new(alloc, qself)?),
        path: Path {
            leading: true,
            segments: rest,
        },
    })
}

// What stands in place of a path that begins with `Self`.
fn place_of(
    alloc: Global,
    own: &Receiver,
    is_ty: bool,
    first: PathSegment,
    rest: Vec<PathSegment>,
) -> Result<Place, AllocError>
    ensures { IfOk result (λ p. place_view p ≡ instead (own_view own.now) is_ty (segment_view first) (segments_of (map segment_view rest.items))) }
{
    let at = first.ident.span;
    if rest.is_empty() {
        let turbofish = needs_turbofish(is_ty, &first.arguments);
        let path = own.path(alloc, turbofish, at)?;
        return Ok(Place { qself: None, path });
    }
    let place = below(alloc, own, at, rest)?;
    Ok(place)
}

// What becomes of a path of these segments before which nothing stands.
fn head(
    alloc: Global,
    own: &Receiver,
    is_ty: bool,
    segments: Vec<PathSegment>,
) -> Result<Place, AllocError>
    ensures { IfOk result (λ p. place_view p ≡ headed (own_view own.now) is_ty no_qself (path false (segments_of (map segment_view segments.items)))) }
{
    let mut segments = segments;
    let replaces = match segments.first() {
        Some(first) => is_named_self(first),
        None => false,
    };
    if !replaces {
        return Ok(Place {
            qself: None,
            path: Path {
                leading: false,
                segments,
            },
        });
    }
    let first = segments.remove(0);
    let place = place_of(alloc, own, is_ty, first, segments)?;
    Ok(place)
}

/// What becomes of a path with its qualified self, of which the arguments were walked already.
pub(crate) fn head_replaced(
    alloc: Global,
    own: &Receiver,
    is_ty: bool,
    qself: Option<Box<QSelf>>,
    path: Path,
) -> Result<Place, AllocError>
    ensures { IfOk result (λ p. place_view p ≡ headed (own_view own.now) is_ty (maybe_qself_view qself) (path_view path)) }
{
    match qself {
        Some(qself) => Ok(Place {
            qself: Some(qself),
            path,
        }),
        None => {
            if path.leading {
                return Ok(Place { qself: None, path });
            }
            let (_leading, segments) = path.into_parts();
            let place = head(alloc, own, is_ty, segments)?;
            Ok(place)
        }
    }
}
