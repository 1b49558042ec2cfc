//! Paths by their names.
ghost use Rattle.std.specs.Prelude.{◌≡◌, map, bytes_eq};
ghost use Rattle.std.specs.List.{list_all};
ghost use Rattle.syntax_trees.specs.Syntax.{has_no_arguments, segment_name, segments_of};
ghost use Rattle.syntax_trees.specs.View.{segment_view};
ghost use Rattle.type_spellings.specs.Types.{same_names, spells};
ghost use Rattle.value_types.specs.Paths.{is_bare, names_of, symbols};

use syntax_trees::{PathArguments, PathSegment};
use token_trees::Symbol;

fn has_name(segment: &PathSegment, name: Symbol) -> bool
    ensures { result ≡ bytes_eq (segment_name (segment_view segment.now)) name.0.now }
{
    segment.ident.text.as_str() == name.0
}

/// Whether the segment has no arguments.
pub(crate) fn is_bare(segment: &PathSegment) -> bool
    ensures { result ≡ is_bare segment.now }
{
    match segment.arguments {
        PathArguments::None => true,
        _ => false,
    }
}

/// Whether no segment has arguments.
pub(crate) fn are_bare(segments: &[PathSegment]) -> bool
    ensures { result ≡ list_all is_bare segments.now }
{
    segments.iter().all(|segment| is_bare(segment))
}

/// Whether the segments have those names.
pub(crate) fn have_names(segments: &[PathSegment], names: &[Symbol]) -> bool
    ensures { result ≡ same_names (names_of segments.now) (symbols names.now) }
{
    let mut left = names;
    for segment in segments {
        let Some((name, rest)) = left.split_first() else {
            return false;
        };
        if !has_name(segment, *name) {
            return false;
        }
        left = rest;
    }
    left.is_empty()
}

/// Whether the segments have those names, and no arguments.
#[tactic(auto, using(crate::proofs::Paths::spelled))]
pub fn spells(segments: &[PathSegment], names: &[Symbol]) -> bool
    ensures { result ≡ spells (segments_of (map segment_view segments.now)) (symbols names.now) }
{
    are_bare(segments) && have_names(segments, names)
}
