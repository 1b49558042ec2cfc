//! The path of the type that a container stands for.
ghost use Rattle.std.specs.Prelude.{◌≡◌, ◌++◌, ◌∷◌, [], IfOk, OnOk, option_map, map, false};
ghost use Rattle.token_trees.specs.View.{trees, name_view};
ghost use Rattle.token_trees.specs.Token.{span_of_all};
ghost use Rattle.syntax_trees.specs.Item.{item_view, variant_view};
ghost use Rattle.syntax_trees.specs.Syntax.{path, angle, segments_of, generics_of};
ghost use Rattle.syntax_trees.specs.View.{path_view, segment_view, arguments_view, generic_view};
ghost use Rattle.syntax_parsers.specs.Whole.{path_of};
ghost use Rattle.attr_parts.specs.Names.{attr_name};
ghost use Rattle.attr_defs.specs.Acts.{is_path};
ghost use Rattle.attr_defs.specs.Owners.{whole};
ghost use Rattle.attr_defs.specs.Rows.{set_maybe, lacks_arguments, is_self, name_path, owner_name, remote_path, no_path};
ghost use Rattle.attr_defs.specs.Steps.{does};
ghost use Rattle.attr_defs.specs.Texts.{lexed, parsed_step};
ghost use Rattle.attr_acts.specs.Does.{Does, followed};
ghost use Rattle.attr_rows.specs.OwnerView.{owner_view};
ghost use Rattle.attr_acts.specs.Views.{acts_view, slot_view};

use crate::owner::Owner;
use attr_acts::{Act, Slot, Value, path_step, set};
use std::alloc::{AllocError, Global};
use syntax_trees::{GenericArgument, Path, PathArguments, PathSegment};
use token_trees::{Ident, Span, Symbol, TokenTree, span_of_trees};

// Whether the list of arguments is empty.
fn is_empty_list(turbofish: bool, args: &[GenericArgument]) -> bool
    ensures { result ≡ lacks_arguments (angle turbofish (generics_of (map generic_view args.now))) }
{
    match args {
        [] => true,
        [_, ..] => false,
    }
}

// Whether there are no arguments, or an empty list of them.
fn lacks_arguments(arguments: &PathArguments) -> bool
    ensures { result ≡ lacks_arguments (arguments_view arguments.now) }
{
    match arguments {
        PathArguments::None => true,
        PathArguments::Angle { turbofish, args } => is_empty_list(*turbofish, args),
        PathArguments::Paren { .. } => false,
    }
}

// Whether the segment is `Self`, also with an empty list of arguments.
fn is_self_segment(segment: &PathSegment) -> bool
    ensures { result ≡ is_self (path false (segments_of (segment_view segment.now ∷ []))) }
{
    segment.ident.is(Symbol("Self")) && lacks_arguments(&segment.arguments)
}

// Whether the segments are that one alone.
fn are_self(segments: &[PathSegment]) -> bool
    ensures { result ≡ is_self (path false (segments_of (map segment_view segments.now))) }
{
    match segments {
        [segment] => is_self_segment(segment),
        _ => false,
    }
}

// Whether the path is `Self`, also with an empty list of arguments.
fn is_self(path: &Path) -> bool
    ensures { result ≡ is_self (path_view path.now) }
{
    !path.leading && are_self(&path.segments)
}

// The path of that name alone.
fn name_path(alloc: Global, ident: Ident) -> Result<Path, AllocError>
    ensures { IfOk result (λ p. path_view p ≡ name_path (name_view ident)) }
{
    let mut segments = Vec::with_capacity(alloc, 1)?;
    segments.push(PathSegment {
        ident,
        arguments: PathArguments::None,
    })?;
    Ok(Path {
        leading: false,
        segments,
    })
}

// The owner's name.
fn owner_name(alloc: Global, owner: Owner<'_>) -> Result<Ident, AllocError>
    ensures { IfOk result (λ i. name_view i ≡ owner_name (owner_view owner.entry)) }
{
    match owner {
        Owner::Container(item) => item.ident.try_clone(alloc),
        Owner::Variant(variant) => variant.ident.try_clone(alloc),
        Owner::Field(_, name) => Ok(Ident {
            text: String::from_str(alloc, &name.value)?,
            span: name.span,
        }),
    }
}

// The path, where `Self` stands for the owner.
fn remote_path(alloc: Global, owner: Owner<'_>, path: Path) -> Result<Path, AllocError>
    ensures { IfOk result (λ p. path_view p ≡ remote_path (owner_view owner.entry) (path_view path)) }
{
    if is_self(&path) {
        let ident = owner_name(alloc, owner)?;
        return name_path(alloc, ident);
    }
    Ok(path)
}

// A path that is there is set; `Self` stands for the owner.
fn set_remote(
    alloc: Global,
    acts: &mut Vec<Act>,
    owner: Owner<'_>,
    slot: Slot,
    at: Span,
    path: Option<Path>,
) -> Result<(), AllocError>
    ensures { OnOk result (acts_view acts.new.items ≡ acts_view acts.old.items ++ set_maybe (slot_view slot) at (λ q. is_path (remote_path (owner_view owner.entry) q)) (option_map path_view path)) }
{
    match path {
        Some(path) => {
            let remote = remote_path(alloc, owner, path)?;
            set(acts, slot, at, Value::Path(remote))
        }
        None => Ok(()),
    }
}

/// A path; `Self` stands for the owner.
#[tactic(auto, using(attr_acts::proofs::Does::does_then, attr_acts::proofs::Does::does_last, attr_acts::proofs::Does::does_acts))]
pub fn remote<'a>(
    alloc: Global,
    acts: &mut Vec<Act>,
    owner: Owner<'_>,
    name: Symbol,
    path: &'a [TokenTree],
    end: Span,
    rest: &'a [TokenTree],
) -> Result<Option<&'a [TokenTree]>, AllocError>
    ensures { IfOk result (λ o. Does (acts_view acts.old.items) (acts_view acts.new.items) (option_map (λ t. trees t.now) o) (followed (parsed_step lexed path_of no_path name.0.now end (trees rest.now)) (λ t. does (set_maybe (whole name.0.now) (span_of_all (trees path.now)) (λ q. is_path (remote_path (owner_view owner.entry) q)) t) []))) }
{
    let Some(tree) = path_step(alloc, acts, name, end, rest)? else {
        return Ok(None);
    };
    set_remote(
        alloc,
        acts,
        owner,
        Slot::whole(name),
        span_of_trees(path),
        tree,
    )?;
    Ok(Some(&[]))
}
