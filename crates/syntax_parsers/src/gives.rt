//! Whether what stands behind a tree belongs to a type at its end: a `::` with more of a path, or where `bang` says so the `!`
//! of a macro.
ghost use Rattle.std.specs.Prelude.{◌≡◌, None, cond, option_map, map, false, true};
ghost use Rattle.token_trees.specs.View.{trees, tree as tree_view};
ghost use Rattle.syntax_trees.specs.Syntax.{bounds_of};
ghost use Rattle.syntax_trees.specs.View.{ty as ty_view, path_view, segment_view, arguments_view, bound_view, maybe_ty_view};
ghost use Rattle.syntax_parsers.specs.Fronts.{sign_front, tree_front, further_front};
ghost use Rattle.syntax_parsers.specs.Grammar.{choose, gives_segment as segment_gives, gives_path as path_gives, takes_ty as ty_takes, takes_output as output_takes, takes_bounds as bounds_take, takes_bound as bound_takes, takes_path as path_takes, takes_segment as segment_takes, takes_arguments as arguments_take};

use crate::front::{after_sign, after_tree, further};
use syntax_trees::{Bound, Path, PathArguments, PathSegment, Ty};
use token_trees::TokenTree;

#[cycle(takes)]
fn takes_ty(bang: bool, from: &Ty) -> bool
    ensures { result ≡ ty_takes bang (ty_view from.now) }
{
    match from {
        Ty::FnPtr { output, .. } => takes_output(bang, output),
        Ty::ImplTrait(bounds) => takes_bounds(bang, bounds),
        Ty::TraitObject(bounds) => takes_bounds(bang, bounds),
        Ty::Path { qself, path } => match qself {
            None => true,
            Some(_) => takes_path(bang, path),
        },
        Ty::Ptr { elem, .. } => takes_ty(bang, elem),
        Ty::Reference { elem, .. } => takes_ty(bang, elem),
        _ => false,
    }
}

#[cycle(takes)]
fn takes_output(bang: bool, from: &Option<Box<Ty>>) -> bool
    ensures { result ≡ output_takes bang (maybe_ty_view from.now) }
{
    match from {
        None => false,
        Some(inner) => takes_ty(bang, inner),
    }
}

#[cycle(takes)]
#[tactic(auto, using(crate::proofs::Ends::bounds_end, crate::proofs::Ends::bounds_end_nowhere))]
fn takes_bounds(bang: bool, from: &Vec<Bound>) -> bool
    ensures { result ≡ bounds_take bang false (bounds_of (map bound_view from.now.items)) }
{
    match from.last() {
        Some(last) => takes_bound(bang, last),
        None => false,
    }
}

#[cycle(takes)]
fn takes_bound(bang: bool, from: &Bound) -> bool
    ensures { result ≡ bound_takes bang (bound_view from.now) }
{
    match from {
        Bound::Trait(path) => takes_path(bang, path),
        Bound::Lifetime(_) => false,
    }
}

#[cycle(takes)]
fn takes_path(bang: bool, from: &Path) -> bool
    ensures { result ≡ path_takes bang (path_view from.now) }
{
    if bang { gives_path(from) } else { true }
}

#[cycle(takes)]
#[tactic(auto, using(crate::proofs::Ends::path_ends, crate::proofs::Ends::path_ends_nowhere))]
fn gives_path(from: &Path) -> bool
    ensures { result ≡ path_gives (path_view from.now) }
{
    match from.segments.last() {
        Some(last) => takes_segment(true, last),
        None => false,
    }
}

#[cycle(takes)]
fn takes_segment(bang: bool, from: &PathSegment) -> bool
    ensures { result ≡ segment_takes bang (segment_view from.now) }
{
    takes_arguments(bang, &from.arguments)
}

#[cycle(takes)]
fn takes_arguments(bang: bool, from: &PathArguments) -> bool
    ensures { result ≡ arguments_take bang (arguments_view from.now) }
{
    match from {
        PathArguments::Paren { output, .. } => takes_output(bang, output),
        _ => false,
    }
}

// Behind a segment and a `::` that belongs to its path.
pub(crate) fn after_segment<'a>(
    segment: &PathSegment,
    rest: &'a [TokenTree],
) -> Option<&'a [TokenTree]>
    ensures { option_map (λ x. trees x.now) result ≡ cond (segment_gives (segment_view segment.now)) None (further_front (trees rest.now)) }
{
    if takes_segment(false, segment) {
        return None;
    }
    further(rest)
}

// Behind a path, the `!` and the group of a macro.
pub(crate) fn after_macro<'a>(
    path: &Path,
    rest: &'a [TokenTree],
) -> Option<(&'a TokenTree, &'a [TokenTree])>
    ensures { option_map (λ x. (tree_view x.0.now, trees x.1.now)) result ≡ cond (path_gives (path_view path.now)) None (choose (sign_front 33 (trees rest.now)) tree_front None) }
{
    if gives_path(path) {
        return None;
    }
    let behind = after_sign('!', rest)?;
    after_tree(behind)
}
