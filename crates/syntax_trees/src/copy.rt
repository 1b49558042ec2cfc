//! Copies of the syntax trees.
ghost use Rattle.std.specs.Prelude.{◌≡◌, IfOk, map};
ghost use Rattle.syntax_trees.specs.View.{ty, path_view, segment_view, arguments_view, generic_view, qself_view, expr, expr_path_view, bound_view, lifetime_view, member_view, maybe_ty_view, maybe_qself_view, maybe_lifetime_view, lit_str_view};
ghost use Rattle.token_trees.specs.View.{fixed_view};

use crate::tree::{
    Bound, Expr, ExprPath, GenericArgument, Lifetime, LitStr, Member, Path, PathArguments,
    PathSegment, QSelf, Ty,
};
use std::alloc::{AllocError, Global};
use token_trees::Literal;

impl Lifetime {
    pub fn try_clone(&self, alloc: Global) -> Result<Lifetime, AllocError>
        ensures { IfOk result (λ l. lifetime_view l ≡ lifetime_view self.now) }
    {
        Ok(Lifetime {
            ident: self.ident.try_clone(alloc)?,
            span: self.span,
        })
    }
}

impl Member {
    pub fn try_clone(&self, alloc: Global) -> Result<Member, AllocError>
        ensures { IfOk result (λ m. member_view m ≡ member_view self.now) }
    {
        match self {
            Member::Named(name) => Ok(Member::Named(name.try_clone(alloc)?)),
            Member::Unnamed(n) => Ok(Member::Unnamed(*n)),
        }
    }
}

impl LitStr {
    pub fn try_clone(&self, alloc: Global) -> Result<LitStr, AllocError>
        ensures { IfOk result (λ l. lit_str_view l ≡ lit_str_view self.now) }
    {
        Ok(LitStr {
            value: String::from_str(alloc, &self.value)?,
            suffix: String::from_str(alloc, &self.suffix)?,
            span: self.span,
        })
    }
}

fn copy_literal(alloc: Global, from: &Literal) -> Result<Literal, AllocError>
    ensures lit { IfOk result (λ l. fixed_view l.lit ≡ fixed_view from.now.lit) }
    ensures span { IfOk result (λ l. l.span ≡ from.now.span) }
{
    Ok(Literal {
        lit: from.lit.try_clone(alloc)?,
        span: from.span,
    })
}

#[cycle(copy)]
fn copy_ty(alloc: Global, from: &Ty) -> Result<Ty, AllocError>
    ensures { IfOk result (λ t. ty t ≡ ty from.now) }
{
    match from {
        Ty::Array(elem, len) => Ok(Ty::Array(copy_box(alloc, elem)?, copy_box_expr(alloc, len)?)),
        Ty::FnPtr { inputs, output } => Ok(Ty::FnPtr {
            inputs: copy_tys(alloc, inputs)?,
            output: copy_maybe_ty(alloc, output)?,
        }),
        Ty::Group(inner) => Ok(Ty::Group(copy_box(alloc, inner)?)),
        Ty::ImplTrait(bounds) => Ok(Ty::ImplTrait(copy_bounds(alloc, bounds)?)),
        Ty::Infer(span) => Ok(Ty::Infer(*span)),
        Ty::Macro { path, tokens } => Ok(Ty::Macro {
            path: copy_path(alloc, path)?,
            tokens: tokens.try_clone(alloc)?,
        }),
        Ty::Never(span) => Ok(Ty::Never(*span)),
        Ty::Paren(inner) => Ok(Ty::Paren(copy_box(alloc, inner)?)),
        Ty::Path { qself, path } => Ok(Ty::Path {
            qself: copy_maybe_qself(alloc, qself)?,
            path: copy_path(alloc, path)?,
        }),
        Ty::Ptr { mutable, elem } => Ok(Ty::Ptr {
            mutable: *mutable,
            elem: copy_box(alloc, elem)?,
        }),
        Ty::Reference {
            lifetime,
            mutable,
            elem,
        } => Ok(Ty::Reference {
            lifetime: copy_maybe_lifetime(alloc, lifetime)?,
            mutable: *mutable,
            elem: copy_box(alloc, elem)?,
        }),
        Ty::Slice(elem) => Ok(Ty::Slice(copy_box(alloc, elem)?)),
        Ty::TraitObject(bounds) => Ok(Ty::TraitObject(copy_bounds(alloc, bounds)?)),
        Ty::Tuple(elems) => Ok(Ty::Tuple(copy_tys(alloc, elems)?)),
        Ty::Verbatim(tokens) => Ok(Ty::Verbatim(tokens.try_clone(alloc)?)),
    }
}

fn copy_maybe_lifetime(
    alloc: Global,
    from: &Option<Lifetime>,
) -> Result<Option<Lifetime>, AllocError>
    ensures { IfOk result (λ l. maybe_lifetime_view l ≡ maybe_lifetime_view from.now) }
{
    match from {
        None => Ok(None),
        Some(lifetime) => Ok(Some(lifetime.try_clone(alloc)?)),
    }
}

#[cycle(copy)]
fn copy_box(alloc: Global, from: &Box<Ty>) -> Result<Box<Ty>, AllocError>
    ensures { IfOk result (λ t. ty t.value ≡ ty from.now.value) }
{
    Ok(Box::new(alloc, copy_ty(alloc, from)?)?)
}

#[cycle(copy)]
fn copy_box_expr(alloc: Global, from: &Box<Expr>) -> Result<Box<Expr>, AllocError>
    ensures { IfOk result (λ e. expr e.value ≡ expr from.now.value) }
{
    Ok(Box::new(alloc, copy_expr(alloc, from)?)?)
}

#[cycle(copy)]
fn copy_maybe_ty(alloc: Global, from: &Option<Box<Ty>>) -> Result<Option<Box<Ty>>, AllocError>
    ensures { IfOk result (λ t. maybe_ty_view t ≡ maybe_ty_view from.now) }
{
    match from {
        None => Ok(None),
        Some(inner) => Ok(Some(Box::new(alloc, copy_ty(alloc, inner)?)?)),
    }
}

#[cycle(copy)]
fn copy_maybe_qself(
    alloc: Global,
    from: &Option<Box<QSelf>>,
) -> Result<Option<Box<QSelf>>, AllocError>
    ensures { IfOk result (λ t. maybe_qself_view t ≡ maybe_qself_view from.now) }
{
    match from {
        None => Ok(None),
        Some(inner) => Ok(Some(Box::new(alloc, copy_qself(alloc, inner)?)?)),
    }
}

#[cycle(copy)]
fn copy_qself(alloc: Global, from: &QSelf) -> Result<QSelf, AllocError>
    ensures { IfOk result (λ q. qself_view q ≡ qself_view from.now) }
{
    Ok(QSelf {
        ty: copy_ty(alloc, &from.ty)?,
        position: from.position,
    })
}

#[cycle(copy)]
fn copy_tys(alloc: Global, from: &Vec<Ty>) -> Result<Vec<Ty>, AllocError>
    ensures { IfOk result (λ v. map ty v.items ≡ map ty from.now.items) }
{
    let mut copies = Vec::with_capacity(alloc, from.len())?;
    for item in from {
        copies.push(copy_ty(alloc, item)?)?;
    }
    Ok(copies)
}

#[cycle(copy)]
pub(crate) fn copy_bounds(alloc: Global, from: &Vec<Bound>) -> Result<Vec<Bound>, AllocError>
    ensures { IfOk result (λ v. map bound_view v.items ≡ map bound_view from.now.items) }
{
    let mut copies = Vec::with_capacity(alloc, from.len())?;
    for item in from {
        copies.push(copy_bound(alloc, item)?)?;
    }
    Ok(copies)
}

#[cycle(copy)]
fn copy_bound(alloc: Global, from: &Bound) -> Result<Bound, AllocError>
    ensures { IfOk result (λ b. bound_view b ≡ bound_view from.now) }
{
    match from {
        Bound::Trait(path) => Ok(Bound::Trait(copy_path(alloc, path)?)),
        Bound::Lifetime(lifetime) => Ok(Bound::Lifetime(lifetime.try_clone(alloc)?)),
    }
}

#[cycle(copy)]
fn copy_path(alloc: Global, from: &Path) -> Result<Path, AllocError>
    ensures { IfOk result (λ p. path_view p ≡ path_view from.now) }
{
    let mut segments = Vec::with_capacity(alloc, from.segments.len())?;
    for item in &from.segments {
        segments.push(copy_segment(alloc, item)?)?;
    }
    Ok(Path {
        leading: from.leading,
        segments,
    })
}

#[cycle(copy)]
fn copy_segment(alloc: Global, from: &PathSegment) -> Result<PathSegment, AllocError>
    ensures { IfOk result (λ s. segment_view s ≡ segment_view from.now) }
{
    Ok(PathSegment {
        ident: from.ident.try_clone(alloc)?,
        arguments: copy_arguments(alloc, &from.arguments)?,
    })
}

#[cycle(copy)]
fn copy_arguments(alloc: Global, from: &PathArguments) -> Result<PathArguments, AllocError>
    ensures { IfOk result (λ a. arguments_view a ≡ arguments_view from.now) }
{
    match from {
        PathArguments::None => Ok(PathArguments::None),
        PathArguments::Angle { turbofish, args } => Ok(PathArguments::Angle {
            turbofish: *turbofish,
            args: copy_generics(alloc, args)?,
        }),
        PathArguments::Paren { inputs, output } => Ok(PathArguments::Paren {
            inputs: copy_tys(alloc, inputs)?,
            output: copy_maybe_ty(alloc, output)?,
        }),
    }
}

#[cycle(copy)]
fn copy_generics(
    alloc: Global,
    from: &Vec<GenericArgument>,
) -> Result<Vec<GenericArgument>, AllocError>
    ensures { IfOk result (λ v. map generic_view v.items ≡ map generic_view from.now.items) }
{
    let mut copies = Vec::with_capacity(alloc, from.len())?;
    for item in from {
        copies.push(copy_generic(alloc, item)?)?;
    }
    Ok(copies)
}

#[cycle(copy)]
fn copy_generic(alloc: Global, from: &GenericArgument) -> Result<GenericArgument, AllocError>
    ensures { IfOk result (λ g. generic_view g ≡ generic_view from.now) }
{
    match from {
        GenericArgument::Lifetime(lifetime) => {
            Ok(GenericArgument::Lifetime(lifetime.try_clone(alloc)?))
        }
        GenericArgument::Ty(inner) => Ok(GenericArgument::Ty(copy_ty(alloc, inner)?)),
        GenericArgument::Const(value) => Ok(GenericArgument::Const(copy_expr(alloc, value)?)),
        GenericArgument::AssocType { ident, ty } => Ok(GenericArgument::AssocType {
            ident: ident.try_clone(alloc)?,
            ty: copy_ty(alloc, ty)?,
        }),
        GenericArgument::AssocConst { ident, value } => Ok(GenericArgument::AssocConst {
            ident: ident.try_clone(alloc)?,
            value: copy_expr(alloc, value)?,
        }),
        GenericArgument::Constraint { ident, bounds } => Ok(GenericArgument::Constraint {
            ident: ident.try_clone(alloc)?,
            bounds: copy_bounds(alloc, bounds)?,
        }),
    }
}

#[cycle(copy)]
fn copy_exprs(alloc: Global, from: &Vec<Expr>) -> Result<Vec<Expr>, AllocError>
    ensures { IfOk result (λ v. map expr v.items ≡ map expr from.now.items) }
{
    let mut copies = Vec::with_capacity(alloc, from.len())?;
    for item in from {
        copies.push(copy_expr(alloc, item)?)?;
    }
    Ok(copies)
}

#[cycle(copy)]
fn copy_expr(alloc: Global, from: &Expr) -> Result<Expr, AllocError>
    ensures { IfOk result (λ e. expr e ≡ expr from.now) }
{
    match from {
        Expr::Binary(left, op, right) => Ok(Expr::Binary(
            copy_box_expr(alloc, left)?,
            op.try_clone(alloc)?,
            copy_box_expr(alloc, right)?,
        )),
        Expr::Call(callee, args) => Ok(Expr::Call(
            copy_box_expr(alloc, callee)?,
            copy_exprs(alloc, args)?,
        )),
        Expr::Cast(value, to) => Ok(Expr::Cast(copy_box_expr(alloc, value)?, copy_box(alloc, to)?)),
        Expr::Field(value, member) => Ok(Expr::Field(
            copy_box_expr(alloc, value)?,
            member.try_clone(alloc)?,
        )),
        Expr::Index(value, at) => Ok(Expr::Index(
            copy_box_expr(alloc, value)?,
            copy_box_expr(alloc, at)?,
        )),
        Expr::Lit(literal) => Ok(Expr::Lit(copy_literal(alloc, literal)?)),
        Expr::Paren(inner) => Ok(Expr::Paren(copy_box_expr(alloc, inner)?)),
        Expr::Path(path) => Ok(Expr::Path(copy_expr_path(alloc, path)?)),
        Expr::Unary(op, inner) => Ok(Expr::Unary(
            op.try_clone(alloc)?,
            copy_box_expr(alloc, inner)?,
        )),
        Expr::Verbatim(tokens) => Ok(Expr::Verbatim(tokens.try_clone(alloc)?)),
    }
}

#[cycle(copy)]
fn copy_expr_path(alloc: Global, from: &ExprPath) -> Result<ExprPath, AllocError>
    ensures { IfOk result (λ p. expr_path_view p ≡ expr_path_view from.now) }
{
    Ok(ExprPath {
        qself: copy_maybe_qself(alloc, &from.qself)?,
        path: copy_path(alloc, &from.path)?,
    })
}

impl Path {
    pub fn try_clone(&self, alloc: Global) -> Result<Path, AllocError>
        ensures { IfOk result (λ p. path_view p ≡ path_view self.now) }
    {
        copy_path(alloc, self)
    }
}

impl Ty {
    pub fn try_clone(&self, alloc: Global) -> Result<Ty, AllocError>
        ensures { IfOk result (λ t. ty t ≡ ty self.now) }
    {
        copy_ty(alloc, self)
    }
}

impl QSelf {
    pub fn try_clone(&self, alloc: Global) -> Result<QSelf, AllocError>
        ensures { IfOk result (λ q. qself_view q ≡ qself_view self.now) }
    {
        copy_qself(alloc, self)
    }
}

impl PathSegment {
    pub fn try_clone(&self, alloc: Global) -> Result<PathSegment, AllocError>
        ensures { IfOk result (λ s. segment_view s ≡ segment_view self.now) }
    {
        copy_segment(alloc, self)
    }
}

impl PathArguments {
    pub fn try_clone(&self, alloc: Global) -> Result<PathArguments, AllocError>
        ensures { IfOk result (λ a. arguments_view a ≡ arguments_view self.now) }
    {
        copy_arguments(alloc, self)
    }
}

impl GenericArgument {
    pub fn try_clone(&self, alloc: Global) -> Result<GenericArgument, AllocError>
        ensures { IfOk result (λ g. generic_view g ≡ generic_view self.now) }
    {
        copy_generic(alloc, self)
    }
}

impl Expr {
    pub fn try_clone(&self, alloc: Global) -> Result<Expr, AllocError>
        ensures { IfOk result (λ e. expr e ≡ expr self.now) }
    {
        copy_expr(alloc, self)
    }
}

impl ExprPath {
    pub fn try_clone(&self, alloc: Global) -> Result<ExprPath, AllocError>
        ensures { IfOk result (λ p. expr_path_view p ≡ expr_path_view self.now) }
    {
        copy_expr_path(alloc, self)
    }
}

impl Bound {
    pub fn try_clone(&self, alloc: Global) -> Result<Bound, AllocError>
        ensures { IfOk result (λ b. bound_view b ≡ bound_view self.now) }
    {
        copy_bound(alloc, self)
    }
}
