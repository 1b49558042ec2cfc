//! The place and the walk of a trail's end.
ghost use Rattle.std.specs.Prelude.{◌≡◌, ◌∷◌, ◌++◌, [], IfOk, string_bytes};
ghost use Rattle.schema_defs.specs.Location.{place as place_of};
ghost use Rattle.merge_walks.specs.Carried.{to_child};
ghost use Rattle.row_findings.specs.View.{keyword_view, steps_view};
ghost use Rattle.merged_rows.specs.Starts.{made_by, path_by, trail_steps, walk_by};

use crate::start::Start;
use row_findings::{Keyword, Steps};
use schema_types::{Location, Walk};
use std::alloc::{AllocError, Global};

/// The keyword as it is written. It takes no memory.
pub(crate) fn word(keyword: Keyword) -> &'static str
    ensures { result.now ≡ keyword_view keyword }
{
    match keyword {
        Keyword::Items => "items",
        Keyword::AdditionalItems => "additionalItems",
        Keyword::Properties => "properties",
        Keyword::PatternProperties => "patternProperties",
        Keyword::AdditionalProperties => "additionalProperties",
        Keyword::PropertyNames => "propertyNames",
        Keyword::AllOf => "allOf",
        Keyword::AnyOf => "anyOf",
        Keyword::OneOf => "oneOf",
        Keyword::Not => "not",
    }
}

// The decimal digits of a place.
fn digits(alloc: Global, place: usize) -> Result<String, AllocError>
    ensures { IfOk result (λ s. string_bytes s ≡ place_of place) }
{
    let text = place.to_string(alloc)?;
    Ok(text)
}

fn with_step(alloc: Global, location: Location, step: &str) -> Result<Location, AllocError>
    ensures { IfOk result (λ l. l ≡ location ++ step.now ∷ []) }
{
    let mut location = location;
    location.steps.push(String::from_str(alloc, step)?)?;
    Ok(location)
}

#[tactic(auto, using(crate::proofs::Trails::name_behind))]
fn with_name(
    alloc: Global,
    location: Location,
    keyword: &str,
    name: &str,
) -> Result<Location, AllocError>
    ensures { IfOk result (λ l. l ≡ location ++ keyword.now ∷ name.now ∷ []) }
{
    let owner = with_step(alloc, location, keyword)?;
    let place = with_step(alloc, owner, name)?;
    Ok(place)
}

/// The place behind these steps. Fails only for want of memory, as all here that takes an allocator.
#[tactic(auto, using(crate::proofs::Trails::no_place, crate::proofs::Trails::two_places))]
pub fn with_steps(
    alloc: Global,
    location: Location,
    steps: Steps<'_>,
) -> Result<Location, AllocError>
    ensures { IfOk result (λ l. l ≡ location ++ steps_view steps.entry) }
{
    match steps {
        Steps::Here => Ok(location),
        Steps::Under(keyword) => {
            let place = with_step(alloc, location, word(keyword))?;
            Ok(place)
        }
        Steps::Named(keyword, name) => {
            let place = with_name(alloc, location, word(keyword), name)?;
            Ok(place)
        }
        Steps::Placed(keyword, number) => {
            let step = digits(alloc, number)?;
            let place = with_name(alloc, location, word(keyword), &step)?;
            Ok(place)
        }
        Steps::Branch(keyword, number, name) => {
            let step = digits(alloc, number)?;
            let branch = with_name(alloc, location, word(keyword), &step)?;
            let place = with_name(alloc, branch, word(Keyword::Properties), name)?;
            Ok(place)
        }
    }
}

/// The walk, and one step further, to what stands behind these steps.
pub fn to_part(alloc: Global, walk: Walk, steps: Steps<'_>) -> Result<Walk, AllocError>
    ensures { IfOk result (λ w. w ≡ to_child walk (steps_view steps.entry)) }
{
    let last = walk.last(alloc)?;
    let place = with_steps(alloc, last, steps)?;
    let mut walk = walk;
    walk.locations.push(place)?;
    Ok(walk)
}

/// The walk of what stands at the end of a trail.
pub fn walk_of(alloc: Global, start: &Start, trail: &Vec<Steps<'_>>) -> Result<Walk, AllocError>
    ensures { IfOk result (λ w. w ≡ walk_by start.now.walk trail.now.items) }
{
    let mut walk = start.walk.try_clone(alloc)?;
    for steps in trail {
        walk = to_part(alloc, walk, *steps)?;
    }
    Ok(walk)
}

fn behind(alloc: Global, location: Location, trail: &Vec<Steps<'_>>) -> Result<Location, AllocError>
    ensures { IfOk result (λ l. l ≡ location ++ trail_steps trail.now.items) }
{
    let mut place = location;
    for steps in trail {
        place = with_steps(alloc, place, *steps)?;
    }
    Ok(place)
}

/// The place at which notes and faults of what stands at the end of a trail are told.
#[tactic(auto, using(crate::proofs::Trails::at_start, crate::proofs::Trails::at_end))]
pub fn location_of(
    alloc: Global,
    start: &Start,
    trail: &Vec<Steps<'_>>,
) -> Result<Location, AllocError>
    ensures { IfOk result (λ l. l ≡ path_by start.now trail.now.items) }
{
    match trail.first() {
        None => {
            let path = start.path.try_clone(alloc)?;
            Ok(path)
        }
        Some(_) => {
            let last = start.walk.last(alloc)?;
            let path = behind(alloc, last, trail)?;
            Ok(path)
        }
    }
}

/// Whether a merge made what stands at the end of a trail. It takes no memory.
#[tactic(auto, using(crate::proofs::Trails::made_at_start, crate::proofs::Trails::made_at_end))]
pub fn is_made_at(start: &Start, trail: &Vec<Steps<'_>>) -> bool
    ensures { result ≡ made_by start.now trail.now.items }
{
    match trail.first() {
        None => start.made,
        Some(_) => false,
    }
}

/// The trail, and these steps.
pub fn longer<'d>(
    alloc: Global,
    trail: &Vec<Steps<'d>>,
    steps: Steps<'d>,
) -> Result<Vec<Steps<'d>>, AllocError>
    ensures { IfOk result (λ v. v.items ≡ trail.now.items ++ steps.entry ∷ []) }
{
    let mut longer = Vec::with_capacity(alloc, trail.len())?;
    longer.extend_from_slice(trail.as_slice())?;
    longer.push(steps)?;
    Ok(longer)
}
