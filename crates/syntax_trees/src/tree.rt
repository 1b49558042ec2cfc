//! Types, paths and expressions. They hold each other, and no item.
ghost use Rattle.std.specs.Prelude.{◌≡◌, ◌↔◌, IsTrue, map};
ghost use Rattle.syntax_trees.specs.Syntax.{IsWord, has_no_arguments, path, segments_of, expr_path};
ghost use Rattle.syntax_trees.specs.View.{path_view, segment_view, expr_path_view, maybe_qself_view};

use token_trees::{Ident, Literal, Span, Symbol, TokenStream};

/// A lifetime: its name without the quote, and the span of the quote.
pub struct Lifetime {
    pub ident: Ident,
    pub span: Span,
}

impl Drop for Lifetime {
    fn drop(self) {
        let Lifetime {
            ident: _ident,
            span: _,
        } = self;
    }
}

/// A field by its name, or by its place from 0.
pub enum Member {
    Named(Ident),
    Unnamed(u32),
}

impl Drop for Member {
    fn drop(self) {
        match self {
            Member::Named(_ident) => {}
            Member::Unnamed(_) => {}
        }
    }
}

/// A string literal: the text without quotes and escapes, what follows it at once, its place.
pub struct LitStr {
    pub value: String,
    pub suffix: String,
    pub span: Span,
}

impl Drop for LitStr {
    fn drop(self) {
        let LitStr {
            value: _value,
            suffix: _suffix,
            span: _,
        } = self;
    }
}

/// A type. `Verbatim` holds what no other variant says.
#[cycle(ast)]
pub enum Ty {
    Array(Box<Ty>, Box<Expr>),
    FnPtr {
        inputs: Vec<Ty>,
        output: Option<Box<Ty>>,
    },
    Group(Box<Ty>),
    ImplTrait(Vec<Bound>),
    Infer(Span),
    Macro {
        path: Path,
        tokens: TokenStream,
    },
    Never(Span),
    Paren(Box<Ty>),
    Path {
        qself: Option<Box<QSelf>>,
        path: Path,
    },
    Ptr {
        mutable: bool,
        elem: Box<Ty>,
    },
    Reference {
        lifetime: Option<Lifetime>,
        mutable: bool,
        elem: Box<Ty>,
    },
    Slice(Box<Ty>),
    TraitObject(Vec<Bound>),
    Tuple(Vec<Ty>),
    Verbatim(TokenStream),
}

impl Drop for Ty {
    #[cycle(let_go)]
    fn drop(self) {
        match self {
            Ty::Array(_elem, _length) => {}
            Ty::FnPtr {
                inputs: _inputs,
                output: _output,
            } => {}
            Ty::Group(_elem)
            | Ty::Paren(_elem)
            | Ty::Ptr {
                mutable: _,
                elem: _elem,
            }
            | Ty::Slice(_elem) => {}
            Ty::ImplTrait(_bounds) | Ty::TraitObject(_bounds) => {}
            Ty::Infer(_) | Ty::Never(_) => {}
            Ty::Macro {
                path: _path,
                tokens: _tokens,
            } => {}
            Ty::Path {
                qself: _qself,
                path: _path,
            } => {}
            Ty::Reference {
                lifetime: _lifetime,
                mutable: _,
                elem: _elem,
            } => {}
            Ty::Tuple(_elems) => {}
            Ty::Verbatim(_tokens) => {}
        }
    }
}

/// Segments between `::`, never empty; `leading` where one stands before the first.
#[cycle(ast)]
pub struct Path {
    pub leading: bool,
    pub segments: Vec<PathSegment>,
}

impl Drop for Path {
    #[cycle(let_go)]
    fn drop(self) {
        let Path {
            leading: _,
            segments: _segments,
        } = self;
    }
}

/// A name with its arguments.
#[cycle(ast)]
pub struct PathSegment {
    pub ident: Ident,
    pub arguments: PathArguments,
}

impl Drop for PathSegment {
    #[cycle(let_go)]
    fn drop(self) {
        let PathSegment {
            ident: _ident,
            arguments: _arguments,
        } = self;
    }
}

/// Nothing, `<..>` (with `::` before it where `turbofish`), or `(..) -> ..`.
#[cycle(ast)]
pub enum PathArguments {
    None,
    Angle {
        turbofish: bool,
        args: Vec<GenericArgument>,
    },
    Paren {
        inputs: Vec<Ty>,
        output: Option<Box<Ty>>,
    },
}

impl Drop for PathArguments {
    #[cycle(let_go)]
    fn drop(self) {
        match self {
            PathArguments::None => {}
            PathArguments::Angle {
                turbofish: _,
                args: _args,
            } => {}
            PathArguments::Paren {
                inputs: _inputs,
                output: _output,
            } => {}
        }
    }
}

/// What stands between `<` and `>`.
#[cycle(ast)]
pub enum GenericArgument {
    Lifetime(Lifetime),
    Ty(Ty),
    Const(Expr),
    AssocType { ident: Ident, ty: Ty },
    AssocConst { ident: Ident, value: Expr },
    Constraint { ident: Ident, bounds: Vec<Bound> },
}

impl Drop for GenericArgument {
    #[cycle(let_go)]
    fn drop(self) {
        match self {
            GenericArgument::Lifetime(_lifetime) => {}
            GenericArgument::Ty(_ty) => {}
            GenericArgument::Const(_expr) => {}
            GenericArgument::AssocType {
                ident: _ident,
                ty: _ty,
            } => {}
            GenericArgument::AssocConst {
                ident: _ident,
                value: _value,
            } => {}
            GenericArgument::Constraint {
                ident: _ident,
                bounds: _bounds,
            } => {}
        }
    }
}

/// The type of `<ty as ..>::`; `position` is the number of segments before the `>`, and 0 prints no `as`.
#[cycle(ast)]
pub struct QSelf {
    pub ty: Ty,
    pub position: u32,
}

impl Drop for QSelf {
    #[cycle(let_go)]
    fn drop(self) {
        let QSelf {
            ty: _ty,
            position: _,
        } = self;
    }
}

/// An expression, as far as array lengths and generic arguments need them.
#[cycle(ast)]
pub enum Expr {
    Binary(Box<Expr>, TokenStream, Box<Expr>),
    Call(Box<Expr>, Vec<Expr>),
    Cast(Box<Expr>, Box<Ty>),
    Field(Box<Expr>, Member),
    Index(Box<Expr>, Box<Expr>),
    Lit(Literal),
    Paren(Box<Expr>),
    Path(ExprPath),
    Unary(TokenStream, Box<Expr>),
    Verbatim(TokenStream),
}

impl Drop for Expr {
    #[cycle(let_go)]
    fn drop(self) {
        match self {
            Expr::Binary(_left, _operator, _right) => {}
            Expr::Call(_function, _arguments) => {}
            Expr::Cast(_expr, _ty) => {}
            Expr::Field(_expr, _member) => {}
            Expr::Index(_expr, _index) => {}
            Expr::Lit(_literal) => {}
            Expr::Paren(_expr) => {}
            Expr::Path(_expr_path) => {}
            Expr::Unary(_operator, _expr) => {}
            Expr::Verbatim(_tokens) => {}
        }
    }
}

/// A path with an optional `<T>::` or `<T as P>::` before it.
#[cycle(ast)]
pub struct ExprPath {
    pub qself: Option<Box<QSelf>>,
    pub path: Path,
}

impl Drop for ExprPath {
    #[cycle(let_go)]
    fn drop(self) {
        let ExprPath {
            qself: _qself,
            path: _path,
        } = self;
    }
}

/// A bound of a type: a trait or a lifetime.
#[cycle(ast)]
pub enum Bound {
    Trait(Path),
    Lifetime(Lifetime),
}

impl Drop for Bound {
    #[cycle(let_go)]
    fn drop(self) {
        match self {
            Bound::Trait(_path) => {}
            Bound::Lifetime(_lifetime) => {}
        }
    }
}

impl ExprPath {
    /// What stands before the path, and the path.
    #[tactic(auto, using(crate::proofs::Views::expr_path_out))]
    pub fn into_parts(self) -> (Option<Box<QSelf>>, Path)
        ensures { expr_path_view self ≡ expr_path (maybe_qself_view result.0) (path_view result.1) }
    {
        let ExprPath { qself, path } = self;
        (qself, path)
    }
}

impl Path {
    /// Whether `::` stands before the first segment, and the segments.
    #[tactic(auto, using(crate::proofs::Views::path_out))]
    pub fn into_parts(self) -> (bool, Vec<PathSegment>)
        ensures { path_view self ≡ path result.0 (segments_of (map segment_view result.1.items)) }
    {
        let Path { leading, segments } = self;
        (leading, segments)
    }

    /// Whether the path is that symbol alone: no leading `::`, one segment, no arguments, and that identifier.
    pub fn is(&self, symbol: Symbol) -> bool
        ensures { IsTrue result ↔ IsWord symbol.0.now (path_view self.now) }
    {
        match self.segments.as_slice() {
            [segment] => !self.leading && is_plain(segment) && segment.ident.is(symbol),
            _ => false,
        }
    }
}

// Whether the segment has no arguments.
fn is_plain(segment: &PathSegment) -> bool
    ensures { result ≡ has_no_arguments (segment_view segment.now) }
{
    match segment.arguments {
        PathArguments::None => true,
        _ => false,
    }
}
