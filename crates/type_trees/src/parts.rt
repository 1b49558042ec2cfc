//! Paths, their segments and arguments, and the types that they are.
ghost use Rattle.std.specs.Fmt.{decimal};
ghost use Rattle.std.specs.Prelude.{◌≡◌, IfOk, OnOk, [], ◌∷◌, ◌++◌, map, false};
ghost use Rattle.token_trees.specs.Token.{site, digits};
ghost use Rattle.token_trees.specs.View.{name_view, fixed_view};
ghost use Rattle.syntax_trees.specs.Syntax.{ty_array, ty_tuple, ty_path, path, segment, no_arguments, angle, arg_ty, ex_fixed, no_qself, tys_of, segments_of, generics_of};
ghost use Rattle.syntax_trees.specs.View.{ty, path_view, segment_view, arguments_view, generic_view, expr};
ghost use Rattle.emit_defs.specs.Trees.{name_at, lone, segments_to, rooted, of_one, of_two};
ghost use Rattle.type_trees.specs.RowView.{symbols, module_segments};

use std::alloc::{AllocError, Global};
use syntax_trees::{Expr, GenericArgument, Path, PathArguments, PathSegment, Ty};
use token_trees::{Ident, Lit, Literal, Span, Symbol};

/// A name without a place of its own.
pub fn name_of(alloc: Global, text: &str) -> Result<Ident, AllocError>
    ensures { IfOk result (λ n. name_view n ≡ name_at text.now) }
{
    Ok(Ident {
        text: String::from_str(alloc, text)?,
        span: Span::call_site(),
    })
}

/// No arguments.
pub fn no_arguments() -> PathArguments
    ensures { arguments_view result ≡ no_arguments }
{
    PathArguments::None
}

fn type_argument(inner: Ty) -> GenericArgument
    ensures { generic_view result ≡ arg_ty (ty inner) }
{
    GenericArgument::Ty(inner)
}

fn in_angles(arguments: Vec<GenericArgument>) -> PathArguments
    ensures { arguments_view result ≡ angle false (generics_of (map generic_view arguments.items)) }
{
    PathArguments::Angle {
        turbofish: false,
        args: arguments,
    }
}

/// One type in angle brackets.
pub fn of_one(alloc: Global, inner: Ty) -> Result<PathArguments, AllocError>
    ensures { IfOk result (λ a. arguments_view a ≡ of_one (ty inner)) }
{
    let mut arguments = Vec::new(alloc);
    arguments.push(type_argument(inner))?;
    Ok(in_angles(arguments))
}

/// Two types in angle brackets.
pub fn of_two(alloc: Global, first: Ty, second: Ty) -> Result<PathArguments, AllocError>
    ensures { IfOk result (λ a. arguments_view a ≡ of_two (ty first) (ty second)) }
{
    let mut arguments = Vec::new(alloc);
    arguments.push(type_argument(first))?;
    arguments.push(type_argument(second))?;
    Ok(in_angles(arguments))
}

fn segment_of(ident: Ident, arguments: PathArguments) -> PathSegment
    ensures { segment_view result ≡ segment (name_view ident) (arguments_view arguments) }
{
    PathSegment { ident, arguments }
}

fn push_segment(
    segments: &mut Vec<PathSegment>,
    alloc: Global,
    name: &str,
    arguments: PathArguments,
) -> Result<(), AllocError>
    ensures { OnOk result (map segment_view segments.new.items ≡ map segment_view segments.old.items ++ segment (name_at name.now) (arguments_view arguments) ∷ []) }
{
    let ident = name_of(alloc, name)?;
    segments.push(segment_of(ident, arguments))?;
    Ok(())
}

// The segments of modules.
fn module_segments(alloc: Global, modules: &[Symbol]) -> Result<Vec<PathSegment>, AllocError>
    ensures { IfOk result (λ v. map segment_view v.items ≡ module_segments (symbols modules.now)) }
{
    let mut segments = Vec::new(alloc);
    for module in modules {
        push_segment(&mut segments, alloc, module.0, no_arguments())?;
    }
    Ok(segments)
}

// The segments of the modules, and of the name with its arguments.
#[tactic(auto, using(crate::proofs::Segments::segments_joined))]
fn segments_to(
    alloc: Global,
    modules: &[Symbol],
    name: &str,
    arguments: PathArguments,
) -> Result<Vec<PathSegment>, AllocError>
    ensures { IfOk result (λ v. map segment_view v.items ≡ segments_to (symbols modules.now) name.now (arguments_view arguments)) }
{
    let mut segments = module_segments(alloc, modules)?;
    push_segment(&mut segments, alloc, name, arguments)?;
    Ok(segments)
}

fn path_of(leading: bool, segments: Vec<PathSegment>) -> Path
    ensures { path_view result ≡ path leading (segments_of (map segment_view segments.items)) }
{
    Path { leading, segments }
}

fn path_type(path: Path) -> Ty
    ensures { ty result ≡ ty_path no_qself (path_view path) }
{
    Ty::Path { qself: None, path }
}

/// The path of that name in modules, with arguments. Where `leading`, it begins with `::`.
pub fn path_at(
    alloc: Global,
    leading: bool,
    modules: &[Symbol],
    name: &str,
    arguments: PathArguments,
) -> Result<Path, AllocError>
    ensures { IfOk result (λ p. path_view p ≡ path leading (segments_of (segments_to (symbols modules.now) name.now (arguments_view arguments)))) }
{
    Ok(path_of(leading, segments_to(alloc, modules, name, arguments)?))
}

/// The type at that path.
pub(crate) fn type_at(
    alloc: Global,
    leading: bool,
    modules: &[Symbol],
    name: &str,
    arguments: PathArguments,
) -> Result<Ty, AllocError>
    ensures { IfOk result (λ t. ty t ≡ ty_path no_qself (path leading (segments_of (segments_to (symbols modules.now) name.now (arguments_view arguments))))) }
{
    Ok(path_type(path_at(alloc, leading, modules, name, arguments)?))
}

/// The type of that name, in scope.
pub fn lone(alloc: Global, name: &str) -> Result<Ty, AllocError>
    ensures { IfOk result (λ t. ty t ≡ lone name.now) }
{
    let t = type_at(alloc, false, &[], name, no_arguments())?;
    Ok(t)
}

/// The type of that name in modules from the root, with arguments.
pub fn rooted(
    alloc: Global,
    modules: &[Symbol],
    name: &str,
    arguments: PathArguments,
) -> Result<Ty, AllocError>
    ensures { IfOk result (λ t. ty t ≡ rooted (symbols modules.now) name.now (arguments_view arguments)) }
{
    let t = type_at(alloc, true, modules, name, arguments)?;
    Ok(t)
}

pub(crate) fn tuple_of(types: Vec<Ty>) -> Ty
    ensures { ty result ≡ ty_tuple (tys_of (map ty types.items)) }
{
    Ty::Tuple(types)
}

fn digits_of(alloc: Global, number: u32) -> Result<Literal, AllocError>
    ensures lit { IfOk result (λ l. fixed_view l.lit ≡ digits (decimal number)) }
    ensures span { IfOk result (λ l. l.span ≡ site) }
{
    Ok(Literal {
        lit: Lit::Int {
            digits: number.to_string(alloc)?,
        },
        span: Span::call_site(),
    })
}

fn literal(from: Literal) -> Expr
    ensures { expr result ≡ ex_fixed (fixed_view from.lit) from.span }
{
    Expr::Lit(from)
}

fn array_between(inner: Box<Ty>, len: Box<Expr>) -> Ty
    ensures { ty result ≡ ty_array (ty inner.value) (expr len.value) }
{
    Ty::Array(inner, len)
}

/// So many of a type, in an array.
pub(crate) fn array_of(alloc: Global, inner: Ty, len: u32) -> Result<Ty, AllocError>
    ensures { IfOk result (λ t. ty t ≡ ty_array (ty inner) (ex_fixed (digits (decimal len)) site)) }
{
    let digits = digits_of(alloc, len)?;
    let len = Box::new(alloc, literal(digits))?;
    let inner = Box::new(alloc, inner)?;
    Ok(array_between(inner, len))
}
