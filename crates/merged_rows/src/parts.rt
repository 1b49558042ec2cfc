//! Where the parts of a row stand, and its branches.
ghost use Rattle.std.specs.Prelude.{◌≡◌, None, IfOk, drop, map, take, unwrap_or};
ghost use Rattle.convert_defs.specs.Convert.{Handed};
ghost use Rattle.convert_defs.specs.Order.{same_place as same_place_of};
ghost use Rattle.convert_walks.specs.Spot.{branch_at, part_spot, spot_inside, spot_of_branch};
ghost use Rattle.convert_walks.specs.Told.{note_path as note_path_of};
ghost use Rattle.row_findings.specs.Given.{source_view};
ghost use Rattle.row_findings.specs.declared.part.Steps.TheVariants as steps;
ghost use Rattle.row_findings.specs.View.{branch_view, part_view, steps_view};
ghost use Rattle.merged_rows.specs.Starts.{handed_to, place_spot, spot_of};

use crate::place::Place;
use crate::places::{location_of, with_steps, word};
use crate::spots::{place_inside, start_at};
use crate::start::Start;
use row_findings::{Branch, Keyword, Part, PartKind, Source, Steps};
use schema_types::Location;
use std::alloc::{AllocError, Global};

// ---- branches

#[tactic(auto, using(schema_types::proofs::Lists::pointwise_of_texts, crate::proofs::Branches::same_by_texts))]
fn same_place(first: &Location, second: &Location) -> bool
    ensures { result ≡ same_place_of first.now second.now }
{
    first.steps == second.steps
}

#[tactic(auto, using(crate::proofs::Branches::same_by_numbers))]
fn same_member(keyword: Keyword, index: usize, other: Keyword, place: usize) -> bool
    ensures { result ≡ same_place_of (steps_view (steps.Placed keyword index)) (steps_view (steps.Placed other place)) }
{
    index == place && word(keyword) == word(other)
}

fn same_location(alloc: Global, first: Steps<'_>, second: Steps<'_>) -> Result<bool, AllocError>
    ensures { IfOk result (λ b. b ≡ same_place_of (steps_view first.entry) (steps_view second.entry)) }
{
    let one = with_steps(alloc, Location::root(alloc), first)?;
    let other = with_steps(alloc, Location::root(alloc), second)?;
    Ok(same_place(&one, &other))
}

// Whether both lead to one place. Members of lists, as branches are, are told apart by their numbers, without memory.
fn same_steps(alloc: Global, first: Steps<'_>, second: Steps<'_>) -> Result<bool, AllocError>
    ensures { IfOk result (λ b. b ≡ same_place_of (steps_view first.entry) (steps_view second.entry)) }
{
    match (first, second) {
        (Steps::Placed(keyword, index), Steps::Placed(other, place)) => {
            Ok(same_member(keyword, index, other, place))
        }
        _ => {
            let same = same_location(alloc, first, second)?;
            Ok(same)
        }
    }
}

// The branch that stands there, or any value.
fn branch_behind<'d>(
    alloc: Global,
    branches: &Vec<Branch<'d>>,
    steps: Steps<'_>,
) -> Result<Source<'d>, AllocError>
    ensures { IfOk result (λ s. source_view s ≡ branch_at (steps_view steps.entry) (map branch_view branches.now.items)) }
{
    for branch in branches {
        if same_steps(alloc, steps, branch.place)? {
            return Ok(Source::Written(branch.schema));
        }
    }
    Ok(Source::Bool(true))
}

// The steps to a branch, and those from it.
fn to_branch<'d>(steps: Steps<'d>) -> Steps<'d>
    ensures { steps_view result ≡ take 2 (steps_view steps.entry) }
{
    match steps {
        Steps::Here => Steps::Here,
        Steps::Under(keyword) => Steps::Under(keyword),
        Steps::Named(keyword, name) => Steps::Named(keyword, name),
        Steps::Placed(keyword, place) => Steps::Placed(keyword, place),
        Steps::Branch(keyword, place, _) => Steps::Placed(keyword, place),
    }
}

fn from_branch<'d>(steps: Steps<'d>) -> Steps<'d>
    ensures { steps_view result ≡ drop 2 (steps_view steps.entry) }
{
    match steps {
        Steps::Here => Steps::Here,
        Steps::Under(_) => Steps::Here,
        Steps::Named(_, _) => Steps::Here,
        Steps::Placed(_, _) => Steps::Here,
        Steps::Branch(_, _, name) => Steps::Named(Keyword::Properties, name),
    }
}

fn place_of_branch<'d>(
    alloc: Global,
    start: &Start,
    trail: &Vec<Steps<'d>>,
    branches: &Vec<Branch<'d>>,
    steps: Steps<'d>,
) -> Result<Place<'d>, AllocError>
    ensures { IfOk result (λ p. (g h : Handed) → place_spot start.now p h ≡ spot_inside (spot_of start.now trail.now.items g) h (steps_view steps.entry) (branch_at (steps_view steps.entry) (map branch_view branches.now.items))) }
{
    let branch = branch_behind(alloc, branches, steps)?;
    let place = place_inside(alloc, start, trail, steps, &branch)?;
    Ok(place)
}

// ---- parts

// The inner place, which has the start of the outer where it has none of its own.
fn nested<'d>(outer: Place<'d>, inner: Place<'d>) -> Place<'d>
    ensures { (t : Start) (h : Handed) → place_spot t result h ≡ place_spot (unwrap_or outer.entry.start t) inner.entry h }
{
    let Place {
        start: outer_start,
        trail: _trail,
    } = outer;
    let Place { start, trail } = inner;
    match start {
        Some(own) => Place {
            start: Some(own),
            trail,
        },
        None => Place {
            start: outer_start,
            trail,
        },
    }
}

fn place_in_branch<'d>(
    alloc: Global,
    start: &Start,
    trail: &Vec<Steps<'d>>,
    branches: &Vec<Branch<'d>>,
    steps: Steps<'d>,
    source: &Source<'_>,
) -> Result<Place<'d>, AllocError>
    ensures { IfOk result (λ p. (g h : Handed) → place_spot start.now p h ≡ spot_inside (spot_of_branch (spot_of start.now trail.now.items g) (map branch_view branches.now.items) (steps_view steps.entry)) h (drop 2 (steps_view steps.entry)) (source_view source.now)) }
{
    let outer = place_of_branch(alloc, start, trail, branches, to_branch(steps))?;
    let inner = place_inside(
        alloc,
        start_at(start, &outer),
        &outer.trail,
        from_branch(steps),
        source,
    )?;
    Ok(nested(outer, inner))
}

/// Where a part of the row stands that is found at the end of a trail, among these branches.
pub fn place_of_part<'d>(
    alloc: Global,
    start: &Start,
    trail: &Vec<Steps<'d>>,
    branches: &Vec<Branch<'d>>,
    part: &Part<'d>,
) -> Result<Place<'d>, AllocError>
    ensures { IfOk result (λ p. (h : Handed) → place_spot start.now p (handed_to h (part_view part.now)) ≡ part_spot (spot_of start.now trail.now.items h) (map branch_view branches.now.items) (part_view part.now)) }
{
    match part.kind {
        PartKind::Child => {
            let place = place_inside(alloc, start, trail, part.steps, &part.source)?;
            Ok(place)
        }
        PartKind::OfBranch => {
            let place = place_in_branch(alloc, start, trail, branches, part.steps, &part.source)?;
            Ok(place)
        }
        PartKind::Lone => {
            let place = place_inside(alloc, start, trail, part.steps, &part.source)?;
            Ok(place)
        }
        PartKind::Made => {
            let place = place_here(alloc, trail)?;
            Ok(place)
        }
    }
}

fn place_here<'d>(alloc: Global, trail: &Vec<Steps<'d>>) -> Result<Place<'d>, AllocError>
    ensures { IfOk result (λ p. (t : Start) (h : Handed) → place_spot t p h ≡ spot_of t trail.now.items h) }
{
    let mut copy = Vec::with_capacity(alloc, trail.len())?;
    copy.extend_from_slice(trail.as_slice())?;
    Ok(Place {
        start: None,
        trail: copy,
    })
}

// ---- notes of a row

fn path_of_branch<'d>(
    alloc: Global,
    start: &Start,
    trail: &Vec<Steps<'d>>,
    branches: &Vec<Branch<'d>>,
    steps: Steps<'d>,
) -> Result<Location, AllocError>
    ensures { IfOk result (λ l. l ≡ (spot_inside (spot_of start.now trail.now.items None) None (steps_view steps.entry) (branch_at (steps_view steps.entry) (map branch_view branches.now.items))).path) }
{
    let place = place_of_branch(alloc, start, trail, branches, steps)?;
    let path = location_of(alloc, start_at(start, &place), &place.trail)?;
    Ok(path)
}

/// The place at which a note is told that stands so many steps behind the end of a trail: at the schema, or at one of its branches.
pub fn note_path<'d>(
    alloc: Global,
    start: &Start,
    trail: &Vec<Steps<'d>>,
    branches: &Vec<Branch<'d>>,
    steps: Steps<'d>,
) -> Result<Location, AllocError>
    ensures { IfOk result (λ l. l ≡ note_path_of (spot_of start.now trail.now.items None) (map branch_view branches.now.items) (steps_view steps.entry)) }
{
    match steps {
        Steps::Here => {
            let path = location_of(alloc, start, trail)?;
            Ok(path)
        }
        Steps::Under(keyword) => {
            let steps = Steps::Under(keyword);
            let path = path_of_branch(alloc, start, trail, branches, steps)?;
            Ok(path)
        }
        Steps::Named(keyword, name) => {
            let steps = Steps::Named(keyword, name);
            let path = path_of_branch(alloc, start, trail, branches, steps)?;
            Ok(path)
        }
        Steps::Placed(keyword, place) => {
            let steps = Steps::Placed(keyword, place);
            let path = path_of_branch(alloc, start, trail, branches, steps)?;
            Ok(path)
        }
        Steps::Branch(keyword, place, name) => {
            let steps = Steps::Branch(keyword, place, name);
            let path = path_of_branch(alloc, start, trail, branches, steps)?;
            Ok(path)
        }
    }
}
