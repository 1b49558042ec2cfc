//! What a syntax type is to a reader of values, one level deep.
ghost use Rattle.std.specs.Prelude.{◌≡◌, [], ◌∷◌, true, false, map, option_map, if◌then◌else◌};
ghost use Rattle.token_trees.specs.View.{fixed_view};
ghost use Rattle.syntax_trees.specs.Syntax.{angle, more_generics, end_generics, generics_of, segments_of, segment_name, ex_fixed};
ghost use Rattle.syntax_trees.specs.View.{ty as ty_view, path_view, segment_view, arguments_view, generic_view, expr};
ghost use Rattle.type_spellings.specs.Types.{type_of, literal_number, is_utc, plain_path, path_of_one, path_of_two, path_type, named_type, array_of, utc_given, types_given};
ghost use Rattle.value_types.specs.Levels.{path_model, arguments_model, generic_model, segment_model, segment_models};
ghost use Rattle.value_types.specs.Paths.{names_of};
ghost use Rattle.value_types.specs.RowView.{meaning_of, word_rows, plain_in};
ghost use Rattle.value_types.specs.ShapeView.{type_in, shape_view, given_view, few, two_given, numbered, word_or_item};

use crate::path::{are_bare, have_names, is_bare, spells};
use crate::rows::{Holder, Plain, holder_named, plain_named, word_named};
use schema_defs::Format;
use syntax_trees::{Expr, GenericArgument, Path, PathArguments, PathSegment, Ty};
use token_trees::{Lit, Literal, Symbol};

/// What a syntax type is to a reader of values, with the types that it holds as they are written.
#[derive(Clone, Copy)]
pub enum Shape<'a> {
    Plain(Plain),
    /// The item of that name.
    Item(&'a str),
    Held(Holder, &'a Ty),
    /// The type of the names, and that of the values.
    Map(&'a Ty, &'a Ty),
    Tuple(&'a [Ty]),
    /// The type of the items, and their number as it is written, which may be none.
    Array(&'a Ty, &'a str),
    /// A type that no reader knows.
    Outside,
}

// What stands behind a name.
#[derive(Clone, Copy)]
enum Given<'a> {
    Nothing,
    Utc,
    One(&'a Ty),
    Two(&'a Ty, &'a Ty),
    Others,
}

static UTC: [Symbol; 3] = [Symbol("chrono"), Symbol("offset"), Symbol("Utc")];

static DATE_TIME: [Symbol; 2] = [Symbol("chrono"), Symbol("DateTime")];

static MAP: [Symbol; 3] = [Symbol("std"), Symbol("collections"), Symbol("HashMap")];

// Whether the type is `::chrono::offset::Utc`.
fn is_utc(ty: &Ty) -> bool
    ensures { result ≡ is_utc (ty_view ty.now) }
{
    match ty {
        Ty::Path { qself: None, path } => path.leading && spells(&path.segments, &UTC),
        _ => false,
    }
}

// The type that an argument is.
fn type_argument(argument: &GenericArgument) -> Option<&Ty>
    ensures { option_map (λ t. type_in t.now) result ≡ generic_model (generic_view argument.now) }
{
    match argument {
        GenericArgument::Lifetime(_) => None,
        GenericArgument::Ty(ty) => Some(ty),
        GenericArgument::Const(_) => None,
        GenericArgument::AssocType { .. } => None,
        GenericArgument::AssocConst { .. } => None,
        GenericArgument::Constraint { .. } => None,
    }
}

fn given_one(argument: &GenericArgument) -> Given<'_>
    ensures { given_view result ≡ few (arguments_model (angle false (more_generics (generic_view argument.now) end_generics))) }
{
    match argument {
        GenericArgument::Lifetime(_) => Given::Others,
        GenericArgument::Ty(ty) => type_given(ty),
        GenericArgument::Const(_) => Given::Others,
        GenericArgument::AssocType { .. } => Given::Others,
        GenericArgument::AssocConst { .. } => Given::Others,
        GenericArgument::Constraint { .. } => Given::Others,
    }
}

fn type_given(ty: &Ty) -> Given<'_>
    ensures { given_view result ≡ few (if is_utc (ty_view ty.now) then utc_given else types_given (type_in ty.now ∷ [])) }
{
    if is_utc(ty) {
        Given::Utc
    } else {
        Given::One(ty)
    }
}

fn given_two<'a>(first: &'a GenericArgument, second: &'a GenericArgument) -> Given<'a>
    ensures { given_view result ≡ two_given (generic_model (generic_view first.now)) (generic_model (generic_view second.now)) }
{
    match (type_argument(first), type_argument(second)) {
        (Some(first), Some(second)) => Given::Two(first, second),
        _ => Given::Others,
    }
}

// What stands in angle brackets.
#[tactic(auto, using(crate::proofs::Arguments::two_in_brackets, crate::proofs::Arguments::many_in_brackets))]
fn given_in(arguments: &[GenericArgument]) -> Given<'_>
    ensures { given_view result ≡ few (arguments_model (angle false (generics_of (map generic_view arguments.now)))) }
{
    match arguments {
        [] => Given::Others,
        [argument] => given_one(argument),
        [first, second] => given_two(first, second),
        _ => Given::Others,
    }
}

// What stands behind a name.
fn given_by(arguments: &PathArguments) -> Given<'_>
    ensures { given_view result ≡ few (arguments_model (arguments_view arguments.now)) }
{
    match arguments {
        PathArguments::None => Given::Nothing,
        PathArguments::Angle {
            turbofish: true,
            ..
        } => Given::Others,
        PathArguments::Angle {
            turbofish: false,
            args,
        } => given_in(args),
        PathArguments::Paren { .. } => Given::Others,
    }
}

// A path from the root without arguments.
fn plain_shape(segments: &[PathSegment]) -> Shape<'static>
    ensures { shape_view result ≡ plain_path (names_of segments.now) }
{
    match plain_named(segments) {
        Some(plain) => Shape::Plain(plain),
        None => Shape::Outside,
    }
}

// A path from the root with one argument.
fn held_shape<'a>(segments: &[PathSegment], ty: &'a Ty) -> Shape<'a>
    ensures { shape_view result ≡ path_of_one (names_of segments.now) (type_in ty.now) }
{
    match holder_named(segments) {
        Some(holder) => Shape::Held(holder, ty),
        None => Shape::Outside,
    }
}

// A path from the root with two.
#[tactic(auto, unfolding(type_spellings::specs::Types::path_of_two))]
fn map_shape<'a>(segments: &[PathSegment], key: &'a Ty, value: &'a Ty) -> Shape<'a>
    ensures { shape_view result ≡ path_of_two (names_of segments.now) (type_in key.now) (type_in value.now) }
{
    if have_names(segments, &MAP) {
        Shape::Map(key, value)
    } else {
        Shape::Outside
    }
}

// A path from the root with `::chrono::offset::Utc` behind it.
fn time_shape(segments: &[PathSegment]) -> Shape<'static>
    ensures { shape_view result ≡ named_type true (names_of segments.now) utc_given }
{
    if have_names(segments, &DATE_TIME) {
        Shape::Plain(Plain::Native(Format::DateTime))
    } else {
        Shape::Outside
    }
}

// A path from the root with what stands behind it.
fn shape_behind<'a>(segments: &[PathSegment], given: Given<'a>) -> Shape<'a>
    ensures { shape_view result ≡ named_type true (names_of segments.now) (given_view given.entry) }
{
    match given {
        Given::Nothing => plain_shape(segments),
        Given::Utc => time_shape(segments),
        Given::One(ty) => held_shape(segments, ty),
        Given::Two(key, value) => map_shape(segments, key, value),
        Given::Others => Shape::Outside,
    }
}

// What stands behind a segment.
fn given_behind(segment: &PathSegment) -> Given<'_>
    ensures { given_view result ≡ few (segment_model (segment_view segment.now)).arguments }
{
    given_by(&segment.arguments)
}

// A path from the root.
#[tactic(auto, using(crate::proofs::Paths::no_path, crate::proofs::Paths::last_given, crate::proofs::Paths::others_before))]
fn rooted(segments: &[PathSegment]) -> Shape<'_>
    ensures { shape_view result ≡ path_type true (segment_models (segments_of (map segment_view segments.now))) }
{
    let Some((last, before)) = segments.split_last() else {
        return Shape::Outside;
    };
    if are_bare(before) {
        return shape_behind(segments, given_behind(last));
    }
    Shape::Outside
}

// A name of Rust's own, or else that of an item.
fn word_shape<'a>(segments: &[PathSegment], name: &'a str) -> Shape<'a>
    ensures { shape_view result ≡ word_or_item (plain_in (meaning_of word_rows (names_of segments.now))) name.now }
{
    match word_named(segments) {
        Some(plain) => Shape::Plain(plain),
        None => Shape::Item(name),
    }
}

// The name of a segment.
fn name_of(segment: &PathSegment) -> &str
    ensures { result.now ≡ segment_name (segment_view segment.now) }
{
    segment.ident.text.as_str()
}

// A path that doesn't begin at the root.
#[tactic(auto, using(crate::proofs::Paths::word_alone, crate::proofs::Paths::more_than_a_word, crate::proofs::Paths::several_words))]
fn lone(segments: &[PathSegment]) -> Shape<'_>
    ensures { shape_view result ≡ path_type false (segment_models (segments_of (map segment_view segments.now))) }
{
    match segments {
        [] => Shape::Outside,
        [segment] => if is_bare(segment) {
            word_shape(segments, name_of(segment))
        } else {
            Shape::Outside
        },
        _ => Shape::Outside,
    }
}

fn path_shape(path: &Path) -> Shape<'_>
    ensures { shape_view result ≡ path_model (path_view path.now) }
{
    if path.leading {
        rooted(&path.segments)
    } else {
        lone(&path.segments)
    }
}

fn digits_in(literal: &Literal) -> Option<&str>
    ensures { numbered (option_map (λ s. s.now) result) ≡ literal_number (ex_fixed (fixed_view literal.now.lit) literal.now.span) }
{
    match &literal.lit {
        Lit::Str { .. } => None,
        Lit::Int { digits } => Some(digits.as_str()),
        Lit::Other { .. } => None,
    }
}

// The digits of a length that is a number.
fn digits_of(length: &Expr) -> Option<&str>
    ensures { numbered (option_map (λ s. s.now) result) ≡ literal_number (expr length.now) }
{
    match length {
        Expr::Binary(_, _, _) => None,
        Expr::Call(_, _) => None,
        Expr::Cast(_, _) => None,
        Expr::Field(_, _) => None,
        Expr::Index(_, _) => None,
        Expr::Lit(literal) => digits_in(literal),
        Expr::Paren(_) => None,
        Expr::Path(_) => None,
        Expr::Unary(_, _) => None,
        Expr::Verbatim(_) => None,
    }
}

fn array_shape<'a>(elem: &'a Ty, length: &'a Expr) -> Shape<'a>
    ensures { shape_view result ≡ array_of (type_in elem.now) (literal_number (expr length.now)) }
{
    match digits_of(length) {
        Some(digits) => Shape::Array(elem, digits),
        None => Shape::Outside,
    }
}

/// What the type is. It takes no memory.
pub fn shape_of(ty: &Ty) -> Shape<'_>
    ensures { shape_view result ≡ type_of (ty_view ty.now) }
{
    match ty {
        Ty::Array(elem, length) => array_shape(elem, length),
        Ty::FnPtr { .. } => Shape::Outside,
        Ty::Group(_) => Shape::Outside,
        Ty::ImplTrait(_) => Shape::Outside,
        Ty::Infer(_) => Shape::Outside,
        Ty::Macro { .. } => Shape::Outside,
        Ty::Never(_) => Shape::Outside,
        Ty::Paren(_) => Shape::Outside,
        Ty::Path { qself: None, path } => path_shape(path),
        Ty::Path { qself: Some(_), .. } => Shape::Outside,
        Ty::Ptr { .. } => Shape::Outside,
        Ty::Reference { .. } => Shape::Outside,
        Ty::Slice(_) => Shape::Outside,
        Ty::TraitObject(_) => Shape::Outside,
        Ty::Tuple(elems) => Shape::Tuple(elems),
        Ty::Verbatim(_) => Shape::Outside,
    }
}
