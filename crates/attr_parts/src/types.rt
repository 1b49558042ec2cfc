//! Questions about types that decide what a field borrows. They take no memory.
ghost use Rattle.std.specs.Prelude.{◌≡◌, ◌<◌, length, map};
ghost use Rattle.std.specs.Str.{bytes_eq};
ghost use Rattle.syntax_trees.specs.Syntax.{generics_of, segment_name};
ghost use Rattle.syntax_trees.specs.View.{ty as ty_view, path_view, segment_view, arguments_view, generic_view};
ghost use Rattle.attr_parts.specs.Types.{shape, ungrouped, are_none, is_bare, is_bare_segment, is_single, is_named, is_elem, angle_args, segment_args, last_name, last_args, path_segments, is_lifetime, is_elem_arg, are_cow_args, is_cow_path, is_cow_of, is_borrowed_reference, is_borrowed_arg, are_option_args, is_option_path, is_option_shape, borrows_implicitly};
ghost use Rattle.attr_parts.specs.TypeViews.{shape_view};

use syntax_trees::{GenericArgument, Path, PathArguments, PathSegment, Ty};

/// What a `Cow` or a reference borrows: a text, or bytes.
#[derive(Clone, Copy, PartialEq, Eq)]
pub enum Elem {
    Str,
    SliceU8,
}

// What is asked of a type first.
#[derive(Clone, Copy)]
enum Shape<'a> {
    Group(&'a Ty),
    Path { qself: bool, path: &'a Path },
    Slice(&'a Ty),
    Reference { mutable: bool, elem: &'a Ty },
    Other,
}

fn shape_of(ty: &Ty) -> Shape<'_>
    ensures { shape_view result ≡ shape (ty_view ty.now) }
{
    match ty {
        Ty::Array(_, _) => Shape::Other,
        Ty::FnPtr { .. } => Shape::Other,
        Ty::Group(inner) => Shape::Group(inner),
        Ty::ImplTrait(_) => Shape::Other,
        Ty::Infer(_) => Shape::Other,
        Ty::Macro { .. } => Shape::Other,
        Ty::Never(_) => Shape::Other,
        Ty::Paren(_) => Shape::Other,
        Ty::Path { qself, path } => Shape::Path {
            qself: qself.is_some(),
            path,
        },
        Ty::Ptr { .. } => Shape::Other,
        Ty::Reference { mutable, elem, .. } => Shape::Reference {
            mutable: *mutable,
            elem,
        },
        Ty::Slice(elem) => Shape::Slice(elem),
        Ty::TraitObject(_) => Shape::Other,
        Ty::Tuple(_) => Shape::Other,
        Ty::Verbatim(_) => Shape::Other,
    }
}

/// The type inside all outer groups without delimiters.
#[tactic(auto, using(crate::proofs::Shapes::ungrouped_of_group, crate::proofs::Shapes::ungrouped_of_path, crate::proofs::Shapes::ungrouped_of_slice, crate::proofs::Shapes::ungrouped_of_reference, crate::proofs::Shapes::ungrouped_of_another))]
pub fn ungroup(ty: &Ty) -> &Ty
    ensures { ty_view result.now ≡ ungrouped (ty_view ty.now) }
{
    let mut inner = ty;
    while let Shape::Group(elem) = shape_of(inner) {
        inner = elem;
    }
    inner
}

#[tactic(auto, using(crate::proofs::Shapes::some_generics))]
fn is_nothing(args: &[GenericArgument]) -> bool
    ensures { result ≡ are_none (generics_of (map generic_view args.now)) }
{
    match args {
        [] => true,
        _ => false,
    }
}

// Whether there are no arguments, or `<>`.
fn has_no_arguments(arguments: &PathArguments) -> bool
    ensures { result ≡ is_bare (arguments_view arguments.now) }
{
    match arguments {
        PathArguments::None => true,
        PathArguments::Angle { args, .. } => is_nothing(args),
        PathArguments::Paren { .. } => false,
    }
}

// Whether the segment has that name and no arguments.
fn is_word_segment(segment: &PathSegment, name: &str) -> bool
    ensures { result ≡ is_bare_segment name.now (segment_view segment.now) }
{
    segment.ident.text.as_str() == name && has_no_arguments(&segment.arguments)
}

// Whether the path is that one name.
fn is_single_name(path: &Path, name: &str) -> bool
    ensures { result ≡ is_single name.now (path_view path.now) }
{
    match path.segments.as_slice() {
        [segment] => !path.leading && is_word_segment(segment, name),
        _ => false,
    }
}

// Whether the type has that name.
fn has_name(ty: &Ty, name: &str) -> bool
    ensures { result ≡ is_named name.now (ty_view ty.now) }
{
    match shape_of(ungroup(ty)) {
        Shape::Group(_) => false,
        Shape::Path { qself, path } => !qself && is_single_name(path, name),
        Shape::Slice(_) => false,
        Shape::Reference { .. } => false,
        Shape::Other => false,
    }
}

// Whether the type is a slice of `u8`.
fn is_bytes(ty: &Ty) -> bool
    ensures { result ≡ is_elem Elem.SliceU8 (ty_view ty.now) }
{
    match shape_of(ungroup(ty)) {
        Shape::Group(_) => false,
        Shape::Path { .. } => false,
        Shape::Slice(elem) => has_name(elem, "u8"),
        Shape::Reference { .. } => false,
        Shape::Other => false,
    }
}

impl Elem {
    /// Whether the type is that element: named `str`, or a slice of a type named `u8`.
    pub fn is(self, ty: &Ty) -> bool
        ensures { result ≡ is_elem self (ty_view ty.now) }
    {
        match self {
            Elem::Str => has_name(ty, "str"),
            Elem::SliceU8 => is_bytes(ty),
        }
    }

    // Whether the argument is a type that is that element.
    fn is_argument(self, argument: &GenericArgument) -> bool
        ensures { result ≡ is_elem_arg self (generic_view argument.now) }
    {
        match argument {
            GenericArgument::Lifetime(_) => false,
            GenericArgument::Ty(ty) => self.is(ty),
            GenericArgument::Const(_) => false,
            GenericArgument::AssocType { .. } => false,
            GenericArgument::AssocConst { .. } => false,
            GenericArgument::Constraint { .. } => false,
        }
    }
}

fn is_lifetime_argument(argument: &GenericArgument) -> bool
    ensures { result ≡ is_lifetime (generic_view argument.now) }
{
    match argument {
        GenericArgument::Lifetime(_) => true,
        GenericArgument::Ty(_) => false,
        GenericArgument::Const(_) => false,
        GenericArgument::AssocType { .. } => false,
        GenericArgument::AssocConst { .. } => false,
        GenericArgument::Constraint { .. } => false,
    }
}

// The angle arguments of a segment, none where it has others or none.
fn arguments_of(segment: &PathSegment) -> &[GenericArgument]
    ensures { generics_of (map generic_view result.now) ≡ segment_args (segment_view segment.now) }
{
    match &segment.arguments {
        PathArguments::None => &[],
        PathArguments::Angle { args, .. } => args.as_slice(),
        PathArguments::Paren { .. } => &[],
    }
}

// The angle arguments of the last segment.
fn last_arguments(path: &Path) -> &[GenericArgument]
    ensures { generics_of (map generic_view result.now) ≡ last_args (path_segments (path_view path.now)) }
{
    match path.segments.last() {
        None => &[],
        Some(segment) => arguments_of(segment),
    }
}

fn has_segment_name(segment: &PathSegment, name: &str) -> bool
    ensures { result ≡ bytes_eq (segment_name (segment_view segment.now)) name.now }
{
    segment.ident.text.as_str() == name
}

// Whether the last segment has that name.
fn ends_with(path: &Path, name: &str) -> bool
    requires { 0 < length name.now }
    ensures { result ≡ bytes_eq (last_name (path_segments (path_view path.now))) name.now }
{
    match path.segments.last() {
        None => false,
        Some(segment) => has_segment_name(segment, name),
    }
}

// Whether the arguments are a lifetime and that element.
fn borrows_elem(args: &[GenericArgument], elem: Elem) -> bool
    ensures { result ≡ are_cow_args elem (generics_of (map generic_view args.now)) }
{
    match args {
        [lifetime, ty] => is_lifetime_argument(lifetime) && elem.is_argument(ty),
        _ => false,
    }
}

/// Whether the type is a `Cow` with a lifetime and that element.
pub fn is_cow(ty: &Ty, elem: Elem) -> bool
    ensures { result ≡ is_cow_of elem (ty_view ty.now) }
{
    match shape_of(ungroup(ty)) {
        Shape::Group(_) => false,
        Shape::Path { path, .. } => is_cow_of_path(path, elem),
        Shape::Slice(_) => false,
        Shape::Reference { .. } => false,
        Shape::Other => false,
    }
}

fn is_cow_of_path(path: &Path, elem: Elem) -> bool
    ensures { result ≡ is_cow_path elem (path_view path.now) }
{
    ends_with(path, "Cow") && borrows_elem(last_arguments(path), elem)
}

// Whether the type is `&str` or `&[u8]`.
fn is_reference(ty: &Ty) -> bool
    ensures { result ≡ is_borrowed_reference (ty_view ty.now) }
{
    match shape_of(ungroup(ty)) {
        Shape::Group(_) => false,
        Shape::Path { .. } => false,
        Shape::Slice(_) => false,
        Shape::Reference { mutable, elem } => {
            !mutable && (Elem::Str.is(elem) || Elem::SliceU8.is(elem))
        }
        Shape::Other => false,
    }
}

fn is_reference_argument(argument: &GenericArgument) -> bool
    ensures { result ≡ is_borrowed_arg (generic_view argument.now) }
{
    match argument {
        GenericArgument::Lifetime(_) => false,
        GenericArgument::Ty(ty) => is_reference(ty),
        GenericArgument::Const(_) => false,
        GenericArgument::AssocType { .. } => false,
        GenericArgument::AssocConst { .. } => false,
        GenericArgument::Constraint { .. } => false,
    }
}

fn is_one_reference(args: &[GenericArgument]) -> bool
    ensures { result ≡ are_option_args (generics_of (map generic_view args.now)) }
{
    match args {
        [argument] => is_reference_argument(argument),
        _ => false,
    }
}

fn is_option_of_path(path: &Path) -> bool
    ensures { result ≡ is_option_path (path_view path.now) }
{
    ends_with(path, "Option") && is_one_reference(last_arguments(path))
}

fn is_option(ty: &Ty) -> bool
    ensures { result ≡ is_option_shape (shape (ungrouped (ty_view ty.now))) }
{
    match shape_of(ungroup(ty)) {
        Shape::Group(_) => false,
        Shape::Path { path, .. } => is_option_of_path(path),
        Shape::Slice(_) => false,
        Shape::Reference { .. } => false,
        Shape::Other => false,
    }
}

/// Whether the type is `&str` or `&[u8]`, or an `Option` of one: such a field borrows without being told to.
pub fn is_implicitly_borrowed(ty: &Ty) -> bool
    ensures { result ≡ borrows_implicitly (ty_view ty.now) }
{
    is_reference(ty) || is_option(ty)
}
