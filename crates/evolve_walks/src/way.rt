//! The way by which a walk came to a pair, from the pairs that it entered.
ghost use Rattle.std.specs.Prelude.{◌≡◌, true, IfOk, IfSome, Some, reverse, slice_get};
ghost use Rattle.evolve_defs.specs.Spots.{Spots, spots_turn};
ghost use Rattle.evolve_defs.specs.Walk.{goes};
ghost use Rattle.evolve_rows.specs.MarksView.{step_view};
ghost use Rattle.evolve_rows.specs.PlaceView.{table_view};
ghost use Rattle.evolve_rows.specs.TurnView.{pair_view, pairs_view};
ghost use Rattle.evolve_walks.specs.Way.{IsStepAt, IsTrail, IsWay, along, marks_view, trail_view};

use crate::same::are_same;
use evolve_rows::{Mark, Pair, Step, Tables, Turn, steps_at, turn_at};
use std::alloc::AllocError;

// A way from a pair on, its last mark first.
#[derive(Drop)]
struct Trail<'a> {
    at: Pair<'a>,
    marks: Vec<Mark<'a>>,
}

// Whether the pair at that number is the same.
fn is_at(pairs: &[Pair<'_>], number: usize, pair: Pair<'_>) -> bool
    ensures { result ≡ true → slice_get (pairs_view pairs.now) number ≡ Some (pair_view pair.entry) }
{
    match pairs.get(number) {
        Some(other) => are_same(*other, pair),
        None => false,
    }
}

// The number of the first pair that is the same.
fn number_of(pairs: &[Pair<'_>], pair: Pair<'_>) -> Option<usize>
    ensures { IfSome result (λ n. slice_get (pairs_view pairs.now) n ≡ Some (pair_view pair.entry)) }
{
    for number in 0..pairs.len() {
        if is_at(pairs, number, pair) {
            return Some(number);
        }
    }
    None
}

// What is told of the step from a pair to one of those that it leads to.
fn step_among<'a>(
    tables: &Tables<'a>,
    from: Pair<'a>,
    pairs: &[Pair<'a>],
    to: Pair<'a>,
) -> Result<Option<Step<'a>>, AllocError>
    ensures { goes (pairs_view pairs.now) ≡ spots_turn (table_view tables.now.old) (table_view tables.now.new) (pair_view from.entry)
        → IfOk result (λ o. IfSome o (λ s. IsStepAt (table_view tables.now.old) (table_view tables.now.new) (pair_view from.entry) (step_view s) (pair_view to.entry))) }
{
    let Some(number) = number_of(pairs, to) else {
        return Ok(None);
    };
    let steps = steps_at(tables, from)?;
    match steps.get(number) {
        Some(step) => Ok(Some(*step)),
        None => Ok(None),
    }
}

// What is told of the step from a pair to another, if it leads to that.
fn step_between<'a>(
    tables: &Tables<'a>,
    from: Pair<'a>,
    to: Pair<'a>,
) -> Result<Option<Step<'a>>, AllocError>
    ensures { IfOk result (λ o. IfSome o (λ s. IsStepAt (table_view tables.now.old) (table_view tables.now.new) (pair_view from.entry) (step_view s) (pair_view to.entry))) }
{
    let turn = turn_at(tables, from)?;
    match turn {
        Turn::Stops(_) => Ok(None),
        Turn::Goes(pairs) => {
            let step = step_among(tables, from, &pairs, to)?;
            Ok(step)
        }
    }
}

// The trail from one step before it.
#[tactic(auto, using(crate::proofs::Ways::one_mark))]
fn longer<'a>(from: Pair<'a>, step: Step<'a>, trail: Trail<'a>) -> Result<Trail<'a>, AllocError>
    ensures { IfOk result (λ t. trail_view t ≡ (pair_view from.entry, along (step_view step.entry) (marks_view (reverse trail.entry.marks.items)))) }
{
    let Trail { at: _, mut marks } = trail;
    match step {
        Step::Inside => Ok(Trail { at: from, marks }),
        Step::To(mark) => {
            marks.push(mark)?;
            Ok(Trail { at: from, marks })
        }
    }
}

// The trail from the pair, if that leads to where it begins.
fn from_pair<'a>(
    tables: &Tables<'a>,
    from: Pair<'a>,
    trail: Trail<'a>,
) -> Result<Trail<'a>, AllocError>
    ensures { (to : Spots) → IsTrail (table_view tables.now.old) (table_view tables.now.new) to (trail_view trail.entry) → IfOk result (λ t. IsTrail (table_view tables.now.old) (table_view tables.now.new) to (trail_view t)) }
{
    let step = step_between(tables, from, trail.at)?;
    match step {
        None => Ok(trail),
        Some(step) => {
            let trail = longer(from, step, trail)?;
            Ok(trail)
        }
    }
}

// The trail to a pair. Each pair was led to by the last one before it that leads to it.
#[tactic(auto, using(crate::proofs::Ways::begun))]
fn trail_to<'a>(
    tables: &Tables<'a>,
    entered: &[Pair<'a>],
    to: Pair<'a>,
) -> Result<Trail<'a>, AllocError>
    ensures { IfOk result (λ t. IsTrail (table_view tables.now.old) (table_view tables.now.new) (pair_view to.entry) (trail_view t)) }
{
    let mut trail = Trail {
        at: to,
        marks: Vec::new(tables.alloc),
    };
    for number in (0..entered.len()).rev() {
        trail = from_pair(tables, entered[number], trail)?;
    }
    Ok(trail)
}

/// The way from the pair at which the walk began to the one that it came to, from those that it entered. It fails where memory runs out.
pub(crate) fn way_to<'a>(
    tables: &Tables<'a>,
    start: Pair<'a>,
    entered: &[Pair<'a>],
    to: Pair<'a>,
) -> Result<Vec<Mark<'a>>, AllocError>
    ensures { IfOk result (λ v. IsWay (table_view tables.now.old) (table_view tables.now.new) (pair_view start.entry) (pair_view to.entry) (marks_view v.items)) }
{
    let trail = trail_to(tables, entered, to)?;
    let Trail { at, mut marks } = trail;
    // The first pair that was entered is the start.
    if !are_same(at, start) {
        return Err(AllocError);
    }
    marks.reverse();
    Ok(marks)
}
