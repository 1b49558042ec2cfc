//! Where a schema inside another stands.
ghost use Rattle.std.specs.Prelude.{◌≡◌, [], IfOk, true, unwrap_or, if◌then◌else◌};
ghost use Rattle.convert_defs.specs.Convert.{Handed};
ghost use Rattle.convert_walks.specs.Spot.{spot_inside};
ghost use Rattle.merge_walks.specs.Carried.{last_of, to_child};
ghost use Rattle.row_findings.specs.Given.{source_view};
ghost use Rattle.row_findings.specs.View.{steps_view};
ghost use Rattle.merged_rows.specs.Starts.{made_by, path_by, place_spot, plain_spot, spot_behind, spot_of, walked_spot};

use crate::place::Place;
use crate::places::{is_made_at, location_of, longer, to_part, walk_of};
use crate::seen::{is_boolean, walk_in};
use crate::start::Start;
use merge_walked::{is_made, unmarked};
use row_findings::{Source, Steps};
use schema_types::{Location, Walk};
use std::alloc::{AllocError, Global};

// A schema that has a walk itself.
fn start_of_walked(
    alloc: Global,
    start: &Start,
    trail: &Vec<Steps<'_>>,
    walk: &Walk,
) -> Result<Start, AllocError>
    ensures { IfOk result (λ t. (g h : Handed) → spot_of t [] h ≡ walked_spot (spot_of start.now trail.now.items g) h walk.now) }
{
    let made = is_made(walk);
    let path = walked_path(alloc, start, trail, walk, made)?;
    let walk = unmarked(walk.try_clone(alloc)?);
    Ok(Start { path, walk, made })
}

fn walked_path(
    alloc: Global,
    start: &Start,
    trail: &Vec<Steps<'_>>,
    walk: &Walk,
    made: bool,
) -> Result<Location, AllocError>
    ensures { IfOk result (λ l. l ≡ (if made then path_by start.now trail.now.items else last_of walk.now)) }
{
    if made {
        let path = location_of(alloc, start, trail)?;
        return Ok(path);
    }
    let path = walk.last(alloc)?;
    Ok(path)
}

fn plain_walk(
    alloc: Global,
    walk: Walk,
    steps: Steps<'_>,
    is_boolean: bool,
) -> Result<Walk, AllocError>
    ensures { IfOk result (λ w. w ≡ (if is_boolean then walk else to_child walk (steps_view steps.entry))) }
{
    if is_boolean {
        return Ok(walk);
    }
    let walk = to_part(alloc, walk, steps)?;
    Ok(walk)
}

// A schema without a walk in one that a merge made.
fn start_in_made(
    alloc: Global,
    start: &Start,
    trail: &Vec<Steps<'_>>,
    steps: Steps<'_>,
    is_boolean: bool,
) -> Result<Start, AllocError>
    requires { made_by start.now trail.now.items ≡ true }
    ensures { IfOk result (λ t. (g h : Handed) → spot_of t [] h ≡ plain_spot (spot_of start.now trail.now.items g) h (steps_view steps.entry) is_boolean) }
{
    let path = location_of(alloc, start, trail)?;
    let walk = walk_of(alloc, start, trail)?;
    let walk = plain_walk(alloc, walk, steps, is_boolean)?;
    Ok(Start {
        path,
        walk,
        made: false,
    })
}

fn start_of_plain(
    alloc: Global,
    start: &Start,
    trail: &Vec<Steps<'_>>,
    steps: Steps<'_>,
    is_boolean: bool,
) -> Result<Option<Start>, AllocError>
    ensures { IfOk result (λ o. (g h : Handed) → spot_behind start.now trail.now.items steps.entry o h ≡ plain_spot (spot_of start.now trail.now.items g) h (steps_view steps.entry) is_boolean) }
{
    if !is_made_at(start, trail) {
        return Ok(None);
    }
    let inside = start_in_made(alloc, start, trail, steps, is_boolean)?;
    Ok(Some(inside))
}

/// The start of a schema so many steps inside what stands at the end of a trail, where it has a walk of its own or where a merge made its
/// owner; or nothing, where it stands one step further.
pub fn start_inside(
    alloc: Global,
    start: &Start,
    trail: &Vec<Steps<'_>>,
    steps: Steps<'_>,
    source: &Source<'_>,
) -> Result<Option<Start>, AllocError>
    ensures { IfOk result (λ o. (g h : Handed) → spot_behind start.now trail.now.items steps.entry o h ≡ spot_inside (spot_of start.now trail.now.items g) h (steps_view steps.entry) (source_view source.now)) }
{
    match walk_in(source) {
        Some(walk) => {
            let inside = start_of_walked(alloc, start, trail, walk)?;
            Ok(Some(inside))
        }
        None => {
            let inside = start_of_plain(alloc, start, trail, steps, is_boolean(source))?;
            Ok(inside)
        }
    }
}

/// Where that schema stands.
pub fn place_inside<'d>(
    alloc: Global,
    start: &Start,
    trail: &Vec<Steps<'d>>,
    steps: Steps<'d>,
    source: &Source<'_>,
) -> Result<Place<'d>, AllocError>
    ensures { IfOk result (λ p. (g h : Handed) → place_spot start.now p h ≡ spot_inside (spot_of start.now trail.now.items g) h (steps_view steps.entry) (source_view source.now)) }
{
    match start_inside(alloc, start, trail, steps, source)? {
        Some(inside) => Ok(Place {
            start: Some(inside),
            trail: Vec::new(alloc),
        }),
        None => {
            let trail = longer(alloc, trail, steps)?;
            Ok(Place { start: None, trail })
        }
    }
}

/// The start of a place, which is the owner's where it has none of its own. It takes no memory.
pub fn start_at<'s>(start: &'s Start, place: &'s Place<'_>) -> &'s Start
    ensures { result.now ≡ unwrap_or place.now.start start.now }
{
    match &place.start {
        Some(own) => own,
        None => start,
    }
}
