//! What a field gets where it is missing.
ghost use Rattle.std.specs.Prelude.{◌≡◌, ℕ, ◌&&◌, Option, Some, true, is_some, bytes_eq, codes, map, option_map, IfOk};
ghost use Rattle.schema_defs.specs.Location.{place};
ghost use Rattle.syntax_trees.specs.Syntax.{segments_of, end_segments, more_segments, has_no_arguments, segment_name};
ghost use Rattle.syntax_trees.specs.View.{expr_path_view, segment_view};
ghost use Rattle.attr_parts.specs.Values as attrs;
ghost use Rattle.container_defs.specs.Reader.{default_place, default_model, default_at, place_in, place_named, written_so};
ghost use Rattle.value_models.specs.FieldView.{default_view};
ghost use Rattle.type_spellings.specs.Types.{number_of};
ghost use Rattle.value_types.specs.Large.{IsTooLarge};
ghost use Rattle.item_models.specs.Places.{placed};
ghost use Rattle.item_models.specs.PlaceView.{IsPlace};

use attr_parts::Default;
use std::alloc::{AllocError, Global};
use syntax_trees::{ExprPath, PathArguments, PathSegment};
use token_trees::Symbol;
use value_models::FieldDefault;
use value_types::{is_number, number_of};

const DEFAULTS: Symbol = Symbol("typify_defaults");

// What stands behind a `d`.
#[tactic(auto, using(crate::proofs::Places::no_name, crate::proofs::Places::a_name, crate::proofs::Places::another_name))]
fn digits_behind(name: &[u8]) -> Option<&[u8]>
    ensures { placed (option_map (λ d. d.now) result) ≡ place_named name.now }
{
    let Some((first, digits)) = name.split_first() else {
        return None;
    };
    if *first == b'd' {
        return Some(digits);
    }
    None
}

fn name_of(segment: &PathSegment) -> &[u8]
    ensures { result.now ≡ segment_name (segment_view segment.now) }
{
    segment.ident.text.as_bytes()
}

fn is_bare(segment: &PathSegment) -> bool
    ensures { result ≡ has_no_arguments (segment_view segment.now) }
{
    match segment.arguments {
        PathArguments::None => true,
        _ => false,
    }
}

fn is_named(segment: &PathSegment, name: Symbol) -> bool
    ensures { result ≡ bytes_eq (segment_name (segment_view segment.now)) name.0.now }
{
    segment.ident.text.as_str() == name.0
}

fn are_places(first: &PathSegment, second: &PathSegment) -> bool
    ensures { result ≡ (has_no_arguments (segment_view first.now) && bytes_eq (segment_name (segment_view first.now)) (codes "typify_defaults") && has_no_arguments (segment_view second.now)) }
{
    is_bare(first) && is_named(first, DEFAULTS) && is_bare(second)
}

fn digits_of<'a>(first: &'a PathSegment, second: &'a PathSegment) -> Option<&'a [u8]>
    ensures { placed (option_map (λ d. d.now) result) ≡ place_in (more_segments (segment_view first.now) (more_segments (segment_view second.now) end_segments)) }
{
    if are_places(first, second) {
        digits_behind(name_of(second))
    } else {
        None
    }
}

#[tactic(auto, using(crate::proofs::Places::many_segments))]
fn digits_in(segments: &[PathSegment]) -> Option<&[u8]>
    ensures { placed (option_map (λ d. d.now) result) ≡ place_in (segments_of (map segment_view segments.now)) }
{
    match segments {
        [] => None,
        [_] => None,
        [first, second] => digits_of(first, second),
        _ => None,
    }
}

// The digits of the place in the table of defaults that the path names.
#[tactic(auto, using(crate::proofs::Places::place_read, crate::proofs::Places::rooted_place, crate::proofs::Places::place_of_type))]
fn place_digits(path: &ExprPath) -> Option<&[u8]>
    ensures { placed (option_map (λ d. d.now) result) ≡ default_place (expr_path_view path.now) }
{
    match path.qself {
        None => if path.path.leading {
            None
        } else {
            digits_in(&path.path.segments)
        },
        Some(_) => None,
    }
}

// Whether the digits are those that are written for the number.
#[tactic(auto, using(crate::proofs::Places::place_written))]
fn is_written(alloc: Global, number: u64, digits: &[u8]) -> Result<bool, AllocError>
    ensures { IfOk result (λ b. b ≡ bytes_eq (place number) digits.now) }
{
    let text = format!(in alloc; "{number}")?;
    Ok(text.as_bytes() == digits)
}

/// A place in the table of defaults.
#[derive(Clone, Copy)]
pub enum Place {
    /// None is named.
    Nowhere,
    At(u64),
    /// Past a u64's end.
    Far,
}

fn place_at(alloc: Global, number: u64, digits: &[u8]) -> Result<Place, AllocError>
    ensures { IfOk result (λ p. IsPlace (written_so digits.now (Some number)) p) }
{
    if is_written(alloc, number, digits)? {
        return Ok(Place::At(number));
    }
    Ok(Place::Nowhere)
}

// The place that digits write past a u64's end: none where a zero is in front.
#[tactic(auto, using(crate::proofs::Places::empty_past))]
fn far_place(digits: &[u8]) -> Place
    requires number { is_some (number_of digits.now) ≡ true }
    requires large { IsTooLarge (number_of digits.now) }
    ensures { IsPlace (written_so digits.now (number_of digits.now)) result }
{
    let Some((first, _)) = digits.split_first() else {
        return Place::Nowhere;
    };
    if *first == b'0' {
        return Place::Nowhere;
    }
    Place::Far
}

fn place_written(alloc: Global, digits: &[u8]) -> Result<Place, AllocError>
    ensures { IfOk result (λ p. IsPlace (written_so digits.now (number_of digits.now)) p) }
{
    if !is_number(digits) {
        return Ok(Place::Nowhere);
    }
    match number_of(digits) {
        Some(number) => {
            let place = place_at(alloc, number, digits)?;
            Ok(place)
        }
        None => Ok(far_place(digits)),
    }
}

/// The place in the table of defaults that the path names, as `typify_defaults::d<n>`.
pub fn place_of(alloc: Global, path: &ExprPath) -> Result<Place, AllocError>
    ensures { IfOk result (λ p. IsPlace (default_place (expr_path_view path.now)) p) }
{
    match place_digits(path) {
        Some(digits) => {
            let place = place_written(alloc, digits)?;
            Ok(place)
        }
        None => Ok(Place::Nowhere),
    }
}

// A place that a model holds, which has a u32: there is no memory for more.
fn default_at(place: Place) -> Result<FieldDefault, AllocError>
    ensures { (o : Option ℕ) → IsPlace o place → IfOk result (λ d. default_view d ≡ default_at o) }
{
    match place {
        Place::Nowhere => Ok(FieldDefault::Nothing),
        Place::At(number) => match u32::try_from(number) {
            Ok(number) => Ok(FieldDefault::Stated(number)),
            Err(_) => Err(AllocError),
        },
        Place::Far => Err(AllocError),
    }
}

fn stated(alloc: Global, path: &ExprPath) -> Result<FieldDefault, AllocError>
    ensures { IfOk result (λ d. default_view d ≡ default_at (default_place (expr_path_view path.now))) }
{
    let place = place_of(alloc, path)?;
    let default = default_at(place)?;
    Ok(default)
}

/// What a field gets where it is missing. It fails where memory runs out, and at a place past a u32's end.
pub(crate) fn default_of(alloc: Global, default: &Default) -> Result<FieldDefault, AllocError>
    ensures { IfOk result (λ d. default_view d ≡ default_model (attrs.default_view default.now)) }
{
    match default {
        Default::None => Ok(FieldDefault::Nothing),
        Default::Default => Ok(FieldDefault::Own),
        Default::Path(path) => {
            let default = stated(alloc, path)?;
            Ok(default)
        }
    }
}
