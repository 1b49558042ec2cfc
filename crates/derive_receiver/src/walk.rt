//! The walk through types, paths and expressions. It copies, so that a failure leaves what it is given as it is.
ghost use Rattle.std.specs.Prelude.{◌≡◌, IfOk, map};
ghost use Rattle.syntax_trees.specs.Syntax.{segments_of, generics_of, tys_of, exprs_of, bounds_of};
ghost use Rattle.syntax_trees.specs.View.{ty, path_view, segment_view, arguments_view, generic_view, qself_view, expr, expr_path_view, bound_view, maybe_ty_view, maybe_qself_view, maybe_lifetime_view};
ghost use Rattle.derive_receiver.specs.Replaced.{in_ty, in_path, in_segment, in_segments, in_arguments, in_generic, in_generics, in_qself, in_expr, in_exprs, in_expr_path, in_bound, in_bounds, in_maybe_ty, in_maybe_qself, in_tys};
ghost use Rattle.derive_receiver.specs.View.{own_view};

use crate::head::head_replaced;
use crate::own::Receiver;
use std::alloc::{AllocError, Global};
use syntax_trees::{
    Bound, Expr, ExprPath, GenericArgument, Lifetime, Path, PathArguments, PathSegment, QSelf, Ty,
};

fn kept_lifetime(alloc: Global, from: &Option<Lifetime>) -> Result<Option<Lifetime>, AllocError>
    ensures { IfOk result (λ l. maybe_lifetime_view l ≡ maybe_lifetime_view from.now) }
{
    match from {
        None => Ok(None),
        Some(lifetime) => Ok(Some(lifetime.try_clone(alloc)?)),
    }
}

#[cycle(walk)]
#[tactic(auto, using(crate::proofs::Walks::as_ty_of))]
pub(crate) fn walk_ty(alloc: Global, own: &Receiver, from: &Ty) -> Result<Ty, AllocError>
    ensures { IfOk result (λ t. ty t ≡ in_ty (own_view own.now) (ty from.now)) }
{
    match from {
        Ty::Array(elem, len) => Ok(Ty::Array(
            walk_box(alloc, own, elem)?,
            walk_box_expr(alloc, own, len)?,
        )),
        Ty::FnPtr { inputs, output } => Ok(Ty::FnPtr {
            inputs: walk_tys(alloc, own, inputs)?,
            output: walk_maybe_ty(alloc, own, output)?,
        }),
        Ty::Group(inner) => Ok(Ty::Group(walk_box(alloc, own, inner)?)),
        Ty::ImplTrait(bounds) => Ok(Ty::ImplTrait(walk_bounds(alloc, own, bounds)?)),
        Ty::Infer(span) => Ok(Ty::Infer(*span)),
        Ty::Macro { path, tokens } => Ok(Ty::Macro {
            path: path.try_clone(alloc)?,
            tokens: tokens.try_clone(alloc)?,
        }),
        Ty::Never(span) => Ok(Ty::Never(*span)),
        Ty::Paren(inner) => Ok(Ty::Paren(walk_box(alloc, own, inner)?)),
        Ty::Path { qself, path } => {
            let qself = walk_maybe_qself(alloc, own, qself)?;
            let path = walk_path(alloc, own, path)?;
            let place = head_replaced(alloc, own, true, qself, path)?;
            Ok(Ty::Path {
                qself: place.qself,
                path: place.path,
            })
        }
        Ty::Ptr { mutable, elem } => Ok(Ty::Ptr {
            mutable: *mutable,
            elem: walk_box(alloc, own, elem)?,
        }),
        Ty::Reference {
            lifetime,
            mutable,
            elem,
        } => Ok(Ty::Reference {
            lifetime: kept_lifetime(alloc, lifetime)?,
            mutable: *mutable,
            elem: walk_box(alloc, own, elem)?,
        }),
        Ty::Slice(elem) => Ok(Ty::Slice(walk_box(alloc, own, elem)?)),
        Ty::TraitObject(bounds) => Ok(Ty::TraitObject(walk_bounds(alloc, own, bounds)?)),
        Ty::Tuple(elems) => Ok(Ty::Tuple(walk_tys(alloc, own, elems)?)),
        Ty::Verbatim(tokens) => Ok(Ty::Verbatim(tokens.try_clone(alloc)?)),
    }
}

#[cycle(walk)]
fn walk_box(alloc: Global, own: &Receiver, from: &Box<Ty>) -> Result<Box<Ty>, AllocError>
    ensures { IfOk result (λ t. ty t.value ≡ in_ty (own_view own.now) (ty from.now.value)) }
{
    Ok(Box::new(alloc, walk_ty(alloc, own, from)?)?)
}

#[cycle(walk)]
fn walk_box_expr(alloc: Global, own: &Receiver, from: &Box<Expr>) -> Result<Box<Expr>, AllocError>
    ensures { IfOk result (λ e. expr e.value ≡ in_expr (own_view own.now) (expr from.now.value)) }
{
    Ok(Box::new(alloc, walk_expr(alloc, own, from)?)?)
}

#[cycle(walk)]
fn walk_maybe_ty(
    alloc: Global,
    own: &Receiver,
    from: &Option<Box<Ty>>,
) -> Result<Option<Box<Ty>>, AllocError>
    ensures { IfOk result (λ t. maybe_ty_view t ≡ in_maybe_ty (own_view own.now) (maybe_ty_view from.now)) }
{
    match from {
        None => Ok(None),
        Some(inner) => Ok(Some(Box::new(alloc, walk_ty(alloc, own, inner)?)?)),
    }
}

#[cycle(walk)]
fn walk_maybe_qself(
    alloc: Global,
    own: &Receiver,
    from: &Option<Box<QSelf>>,
) -> Result<Option<Box<QSelf>>, AllocError>
    ensures { IfOk result (λ q. maybe_qself_view q ≡ in_maybe_qself (own_view own.now) (maybe_qself_view from.now)) }
{
    match from {
        None => Ok(None),
        Some(inner) => Ok(Some(Box::new(alloc, walk_qself(alloc, own, inner)?)?)),
    }
}

#[cycle(walk)]
fn walk_qself(alloc: Global, own: &Receiver, from: &QSelf) -> Result<QSelf, AllocError>
    ensures { IfOk result (λ q. qself_view q ≡ in_qself (own_view own.now) (qself_view from.now)) }
{
    Ok(QSelf {
        ty: walk_ty(alloc, own, &from.ty)?,
        position: from.position,
    })
}

#[cycle(walk)]
fn walk_tys(alloc: Global, own: &Receiver, from: &Vec<Ty>) -> Result<Vec<Ty>, AllocError>
    ensures { IfOk result (λ v. tys_of (map ty v.items) ≡ in_tys (own_view own.now) (tys_of (map ty from.now.items))) }
{
    let mut walked = Vec::with_capacity(alloc, from.len())?;
    for item in from {
        walked.push(walk_ty(alloc, own, item)?)?;
    }
    Ok(walked)
}

#[cycle(walk)]
pub(crate) fn walk_bounds(
    alloc: Global,
    own: &Receiver,
    from: &Vec<Bound>,
) -> Result<Vec<Bound>, AllocError>
    ensures each { IfOk result (λ v. map bound_view v.items ≡ map (in_bound (own_view own.now)) (map bound_view from.now.items)) }
    ensures all { IfOk result (λ v. bounds_of (map bound_view v.items) ≡ in_bounds (own_view own.now) (bounds_of (map bound_view from.now.items))) }
{
    let mut walked = Vec::with_capacity(alloc, from.len())?;
    for item in from {
        walked.push(walk_bound(alloc, own, item)?)?;
    }
    Ok(walked)
}

#[cycle(walk)]
fn walk_bound(alloc: Global, own: &Receiver, from: &Bound) -> Result<Bound, AllocError>
    ensures { IfOk result (λ b. bound_view b ≡ in_bound (own_view own.now) (bound_view from.now)) }
{
    match from {
        Bound::Trait(path) => Ok(Bound::Trait(walk_path(alloc, own, path)?)),
        Bound::Lifetime(lifetime) => Ok(Bound::Lifetime(lifetime.try_clone(alloc)?)),
    }
}

#[cycle(walk)]
fn walk_path(alloc: Global, own: &Receiver, from: &Path) -> Result<Path, AllocError>
    ensures { IfOk result (λ p. path_view p ≡ in_path (own_view own.now) (path_view from.now)) }
{
    Ok(Path {
        leading: from.leading,
        segments: walk_segments(alloc, own, &from.segments)?,
    })
}

#[cycle(walk)]
fn walk_segments(
    alloc: Global,
    own: &Receiver,
    from: &Vec<PathSegment>,
) -> Result<Vec<PathSegment>, AllocError>
    ensures { IfOk result (λ v. segments_of (map segment_view v.items) ≡ in_segments (own_view own.now) (segments_of (map segment_view from.now.items))) }
{
    let mut walked = Vec::with_capacity(alloc, from.len())?;
    for item in from {
        walked.push(walk_segment(alloc, own, item)?)?;
    }
    Ok(walked)
}

#[cycle(walk)]
fn walk_segment(
    alloc: Global,
    own: &Receiver,
    from: &PathSegment,
) -> Result<PathSegment, AllocError>
    ensures { IfOk result (λ s. segment_view s ≡ in_segment (own_view own.now) (segment_view from.now)) }
{
    Ok(PathSegment {
        ident: from.ident.try_clone(alloc)?,
        arguments: walk_arguments(alloc, own, &from.arguments)?,
    })
}

#[cycle(walk)]
fn walk_arguments(
    alloc: Global,
    own: &Receiver,
    from: &PathArguments,
) -> Result<PathArguments, AllocError>
    ensures { IfOk result (λ a. arguments_view a ≡ in_arguments (own_view own.now) (arguments_view from.now)) }
{
    match from {
        PathArguments::None => Ok(PathArguments::None),
        PathArguments::Angle { turbofish, args } => Ok(PathArguments::Angle {
            turbofish: *turbofish,
            args: walk_generics(alloc, own, args)?,
        }),
        PathArguments::Paren { inputs, output } => Ok(PathArguments::Paren {
            inputs: walk_tys(alloc, own, inputs)?,
            output: walk_maybe_ty(alloc, own, output)?,
        }),
    }
}

#[cycle(walk)]
fn walk_generics(
    alloc: Global,
    own: &Receiver,
    from: &Vec<GenericArgument>,
) -> Result<Vec<GenericArgument>, AllocError>
    ensures { IfOk result (λ v. generics_of (map generic_view v.items) ≡ in_generics (own_view own.now) (generics_of (map generic_view from.now.items))) }
{
    let mut walked = Vec::with_capacity(alloc, from.len())?;
    for item in from {
        walked.push(walk_generic(alloc, own, item)?)?;
    }
    Ok(walked)
}

#[cycle(walk)]
fn walk_generic(
    alloc: Global,
    own: &Receiver,
    from: &GenericArgument,
) -> Result<GenericArgument, AllocError>
    ensures { IfOk result (λ g. generic_view g ≡ in_generic (own_view own.now) (generic_view from.now)) }
{
    match from {
        GenericArgument::Lifetime(_) => from.try_clone(alloc),
        GenericArgument::Ty(inner) => Ok(GenericArgument::Ty(walk_ty(alloc, own, inner)?)),
        GenericArgument::Const(_) => from.try_clone(alloc),
        GenericArgument::AssocType { ident, ty } => Ok(GenericArgument::AssocType {
            ident: ident.try_clone(alloc)?,
            ty: walk_ty(alloc, own, ty)?,
        }),
        GenericArgument::AssocConst { .. } => from.try_clone(alloc),
        GenericArgument::Constraint { .. } => from.try_clone(alloc),
    }
}

#[cycle(walk)]
fn walk_exprs(alloc: Global, own: &Receiver, from: &Vec<Expr>) -> Result<Vec<Expr>, AllocError>
    ensures { IfOk result (λ v. exprs_of (map expr v.items) ≡ in_exprs (own_view own.now) (exprs_of (map expr from.now.items))) }
{
    let mut walked = Vec::with_capacity(alloc, from.len())?;
    for item in from {
        walked.push(walk_expr(alloc, own, item)?)?;
    }
    Ok(walked)
}

#[cycle(walk)]
fn walk_expr(alloc: Global, own: &Receiver, from: &Expr) -> Result<Expr, AllocError>
    ensures { IfOk result (λ e. expr e ≡ in_expr (own_view own.now) (expr from.now)) }
{
    match from {
        Expr::Binary(left, op, right) => Ok(Expr::Binary(
            walk_box_expr(alloc, own, left)?,
            op.try_clone(alloc)?,
            walk_box_expr(alloc, own, right)?,
        )),
        Expr::Call(callee, args) => Ok(Expr::Call(
            walk_box_expr(alloc, own, callee)?,
            walk_exprs(alloc, own, args)?,
        )),
        Expr::Cast(value, to) => Ok(Expr::Cast(
            walk_box_expr(alloc, own, value)?,
            walk_box(alloc, own, to)?,
        )),
        Expr::Field(value, member) => Ok(Expr::Field(
            walk_box_expr(alloc, own, value)?,
            member.try_clone(alloc)?,
        )),
        Expr::Index(value, at) => Ok(Expr::Index(
            walk_box_expr(alloc, own, value)?,
            walk_box_expr(alloc, own, at)?,
        )),
        Expr::Lit(_) => from.try_clone(alloc),
        Expr::Paren(inner) => Ok(Expr::Paren(walk_box_expr(alloc, own, inner)?)),
        Expr::Path(path) => Ok(Expr::Path(walk_expr_path(alloc, own, path)?)),
        Expr::Unary(op, inner) => Ok(Expr::Unary(
            op.try_clone(alloc)?,
            walk_box_expr(alloc, own, inner)?,
        )),
        Expr::Verbatim(tokens) => Ok(Expr::Verbatim(tokens.try_clone(alloc)?)),
    }
}

#[cycle(walk)]
fn walk_expr_path(alloc: Global, own: &Receiver, from: &ExprPath) -> Result<ExprPath, AllocError>
    ensures { IfOk result (λ p. expr_path_view p ≡ in_expr_path (own_view own.now) (expr_path_view from.now)) }
{
    let qself = walk_maybe_qself(alloc, own, &from.qself)?;
    let path = walk_path(alloc, own, &from.path)?;
    let place = head_replaced(alloc, own, false, qself, path)?;
    Ok(ExprPath {
        qself: place.qself,
        path: place.path,
    })
}
