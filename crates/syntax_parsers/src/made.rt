//! Trees made of their parts.
ghost use Rattle.std.specs.Prelude.{◌≡◌, IfOk, Some, map, cond, true, false};
ghost use Rattle.token_trees.specs.View.{stream, name_view, fixed_view};
ghost use Rattle.syntax_trees.specs.Syntax.{ty_array, ty_fn, ty_impl, ty_infer, ty_macro, ty_never, ty_paren, ty_path, ty_pointer, ty_reference, ty_slice, ty_object, ty_tuple, path, segment, no_arguments, angle, parens, arg_lifetime, arg_ty, arg_const, arg_assoc_ty, arg_assoc_const, arg_constraint, qself, ex_fixed, ex_path, ex_verbatim, expr_path, bound_trait, bound_lifetime, no_qself, some_qself, tys_of, bounds_of, segments_of, generics_of};
ghost use Rattle.syntax_trees.specs.View.{ty, path_view, segment_view, arguments_view, generic_view, qself_view, expr, expr_path_view, bound_view, lifetime_view, maybe_lifetime_view, maybe_ty_view, maybe_qself_view};

use std::alloc::{AllocError, Global};
use syntax_trees::{
    Bound, Expr, ExprPath, GenericArgument, Lifetime, Path, PathArguments, PathSegment, QSelf, Ty,
};
use token_trees::{Ident, Literal, Span, TokenStream};

pub(crate) fn array_ty(alloc: Global, elem: Ty, len: Expr) -> Result<Ty, AllocError>
    ensures { IfOk result (λ t. ty t ≡ ty_array (ty elem) (expr len)) }
{
    let elem = Box::new(alloc, elem)?;
    Ok(Ty::Array(elem, Box::new(alloc, len)?))
}

pub(crate) fn function_ty(inputs: Vec<Ty>, output: Option<Box<Ty>>) -> Ty
    ensures { ty result ≡ ty_fn (tys_of (map ty inputs.items)) (maybe_ty_view output) }
{
    Ty::FnPtr { inputs, output }
}

pub(crate) fn impl_ty(bounds: Vec<Bound>) -> Ty
    ensures { ty result ≡ ty_impl (bounds_of (map bound_view bounds.items)) }
{
    Ty::ImplTrait(bounds)
}

pub(crate) fn object_ty(bounds: Vec<Bound>) -> Ty
    ensures { ty result ≡ ty_object (bounds_of (map bound_view bounds.items)) }
{
    Ty::TraitObject(bounds)
}

pub(crate) fn infer_ty(span: Span) -> Ty
    ensures { ty result ≡ ty_infer span }
{
    Ty::Infer(span)
}

pub(crate) fn never_ty(span: Span) -> Ty
    ensures { ty result ≡ ty_never span }
{
    Ty::Never(span)
}

pub(crate) fn macro_ty(path: Path, tokens: TokenStream) -> Ty
    ensures { ty result ≡ ty_macro (path_view path) (stream tokens) }
{
    Ty::Macro { path, tokens }
}

pub(crate) fn paren_ty(alloc: Global, inner: Ty) -> Result<Ty, AllocError>
    ensures { IfOk result (λ t. ty t ≡ ty_paren (ty inner)) }
{
    Ok(Ty::Paren(Box::new(alloc, inner)?))
}

pub(crate) fn plain_path_ty(path: Path) -> Ty
    ensures { ty result ≡ ty_path no_qself (path_view path) }
{
    Ty::Path { qself: None, path }
}

pub(crate) fn qualified_path_ty(qself: Option<Box<QSelf>>, path: Path) -> Ty
    ensures { ty result ≡ ty_path (maybe_qself_view qself) (path_view path) }
{
    Ty::Path { qself, path }
}

pub(crate) fn pointer_ty(alloc: Global, mutable: bool, elem: Ty) -> Result<Ty, AllocError>
    ensures { IfOk result (λ t. ty t ≡ ty_pointer mutable (ty elem)) }
{
    let elem = Box::new(alloc, elem)?;
    Ok(Ty::Ptr { mutable, elem })
}

pub(crate) fn reference_ty(
    alloc: Global,
    lifetime: Option<Lifetime>,
    mutable: bool,
    elem: Ty,
) -> Result<Ty, AllocError>
    ensures { IfOk result (λ t. ty t ≡ ty_reference (maybe_lifetime_view lifetime) mutable (ty elem)) }
{
    let elem = Box::new(alloc, elem)?;
    Ok(Ty::Reference {
        lifetime,
        mutable,
        elem,
    })
}

pub(crate) fn slice_ty(alloc: Global, elem: Ty) -> Result<Ty, AllocError>
    ensures { IfOk result (λ t. ty t ≡ ty_slice (ty elem)) }
{
    Ok(Ty::Slice(Box::new(alloc, elem)?))
}

pub(crate) fn tuple_ty(elems: Vec<Ty>) -> Ty
    ensures { ty result ≡ ty_tuple (tys_of (map ty elems.items)) }
{
    Ty::Tuple(elems)
}

pub(crate) fn make_path(leading: bool, segments: Vec<PathSegment>) -> Path
    ensures { path_view result ≡ path leading (segments_of (map segment_view segments.items)) }
{
    Path { leading, segments }
}

pub(crate) fn make_segment(ident: Ident, arguments: PathArguments) -> PathSegment
    ensures { segment_view result ≡ segment (name_view ident) (arguments_view arguments) }
{
    PathSegment { ident, arguments }
}

pub(crate) fn bare_arguments() -> PathArguments
    ensures { arguments_view result ≡ no_arguments }
{
    PathArguments::None
}

pub(crate) fn angle_arguments(turbofish: bool, args: Vec<GenericArgument>) -> PathArguments
    ensures { arguments_view result ≡ angle turbofish (generics_of (map generic_view args.items)) }
{
    PathArguments::Angle { turbofish, args }
}

pub(crate) fn paren_arguments(inputs: Vec<Ty>, output: Option<Box<Ty>>) -> PathArguments
    ensures { arguments_view result ≡ parens (tys_of (map ty inputs.items)) (maybe_ty_view output) }
{
    PathArguments::Paren { inputs, output }
}

pub(crate) fn lifetime_argument(lifetime: Lifetime) -> GenericArgument
    ensures { generic_view result ≡ arg_lifetime (lifetime_view lifetime) }
{
    GenericArgument::Lifetime(lifetime)
}

pub(crate) fn type_argument(inner: Ty) -> GenericArgument
    ensures { generic_view result ≡ arg_ty (ty inner) }
{
    GenericArgument::Ty(inner)
}

pub(crate) fn constant_argument(value: Expr) -> GenericArgument
    ensures { generic_view result ≡ arg_const (expr value) }
{
    GenericArgument::Const(value)
}

pub(crate) fn associated_type(ident: Ident, inner: Ty) -> GenericArgument
    ensures { generic_view result ≡ arg_assoc_ty (name_view ident) (ty inner) }
{
    GenericArgument::AssocType { ident, ty: inner }
}

pub(crate) fn associated_constant(ident: Ident, value: Expr) -> GenericArgument
    ensures { generic_view result ≡ arg_assoc_const (name_view ident) (expr value) }
{
    GenericArgument::AssocConst { ident, value }
}

pub(crate) fn constraint(ident: Ident, bounds: Vec<Bound>) -> GenericArgument
    ensures { generic_view result ≡ arg_constraint (name_view ident) (bounds_of (map bound_view bounds.items)) }
{
    GenericArgument::Constraint { ident, bounds }
}

fn make_qself(inner: Ty, position: u32) -> QSelf
    ensures { qself_view result ≡ qself (ty inner) position }
{
    QSelf {
        ty: inner,
        position,
    }
}

pub(crate) fn literal_length(literal: Literal) -> Expr
    ensures { expr result ≡ ex_fixed (fixed_view literal.lit) literal.span }
{
    Expr::Lit(literal)
}

pub(crate) fn path_length(path: ExprPath) -> Expr
    ensures { expr result ≡ ex_path (expr_path_view path) }
{
    Expr::Path(path)
}

pub(crate) fn verbatim(tokens: TokenStream) -> Expr
    ensures { expr result ≡ ex_verbatim (stream tokens) }
{
    Expr::Verbatim(tokens)
}

pub(crate) fn plain_expr_path(path: Path) -> ExprPath
    ensures { expr_path_view result ≡ expr_path no_qself (path_view path) }
{
    ExprPath { qself: None, path }
}

fn boxed_expr_path(qself: Box<QSelf>, path: Path) -> ExprPath
    ensures { expr_path_view result ≡ expr_path (some_qself (qself_view qself.value)) (path_view path) }
{
    ExprPath {
        qself: Some(qself),
        path,
    }
}

pub(crate) fn qualified_expr_path(
    alloc: Global,
    inner: Ty,
    position: u32,
    path: Path,
) -> Result<ExprPath, AllocError>
    ensures { IfOk result (λ p. expr_path_view p ≡ expr_path (some_qself (qself (ty inner) position)) (path_view path)) }
{
    let front = Box::new(alloc, make_qself(inner, position))?;
    Ok(boxed_expr_path(front, path))
}

pub(crate) fn trait_bound(path: Path) -> Bound
    ensures { bound_view result ≡ bound_trait (path_view path) }
{
    Bound::Trait(path)
}

pub(crate) fn lifetime_bound(lifetime: Lifetime) -> Bound
    ensures { bound_view result ≡ bound_lifetime (lifetime_view lifetime) }
{
    Bound::Lifetime(lifetime)
}
