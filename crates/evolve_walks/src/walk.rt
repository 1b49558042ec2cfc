//! The walk over pairs of places: depth first, each once, up to the first that breaks a rule.
ghost use Rattle.std.specs.Prelude.{◌≡◌, ◌++◌, IfOk, OnOk};
ghost use Rattle.evolve_rows.specs.PlaceView.{table_view};
ghost use Rattle.evolve_rows.specs.TurnView.{pair_view, pairs_view};
ghost use Rattle.evolve_walks.specs.Walking.{EndsAs, left_view, next_view, seen_view, unseen, walked_view};
ghost use Rattle.evolve_walks.specs.Way.{IsOnWay};

use crate::entered::Seen;
use crate::way::way_to;
use evolve_rows::{Broken, Mark, Pair, Tables, Turn, turn_at};
use std::alloc::AllocError;

/// How a walk ends: no pair that was come to breaks a rule, or one does, and that is the way to it.
#[derive(Drop)]
pub enum Walked<'a> {
    Covered,
    Broken(Pair<'a>, Broken, Vec<Mark<'a>>),
}

// The next pair that wasn't entered yet.
#[tactic(auto, using(crate::proofs::Rounds::one_unseen, crate::proofs::Rounds::one_seen))]
fn next_unseen<'a>(
    seen: &Seen<'a>,
    left: &mut Vec<Pair<'a>>,
) -> Result<Option<Pair<'a>>, AllocError>
    ensures { IfOk result (λ o. next_view o left.new.items ≡ unseen (seen_view seen.now) (left_view left.old.items)) }
{
    while let Some(pair) = left.pop() {
        if !seen.has(pair)? {
            return Ok(Some(pair));
        }
    }
    Ok(None)
}

// The pairs, the first of them last.
#[tactic(auto, using(crate::proofs::Rounds::put_turn))]
fn put_first<'a>(left: &mut Vec<Pair<'a>>, pairs: Vec<Pair<'a>>) -> Result<(), AllocError>
    ensures { OnOk result (left_view left.new.items ≡ pairs_view pairs.entry.items ++ left_view left.old.items) }
{
    let mut pairs = pairs;
    while let Some(pair) = pairs.pop() {
        left.push(pair)?;
    }
    Ok(())
}

/// The walk from a pair. It fails where memory runs out.
#[tactic(auto, using(crate::proofs::Rounds::begins, crate::proofs::Rounds::goes_on, crate::proofs::Rounds::is_covered, crate::proofs::Rounds::is_broken))]
pub fn walk_from<'a>(tables: &Tables<'a>, start: Pair<'a>) -> Result<Walked<'a>, AllocError>
    ensures ends { IfOk result (λ w. EndsAs (table_view tables.now.old) (table_view tables.now.new) (pair_view start.entry) (walked_view w)) }
    ensures way { IfOk result (λ w. IsOnWay (table_view tables.now.old) (table_view tables.now.new) (pair_view start.entry) w) }
{
    let mut seen = Seen::new(tables.alloc);
    let mut left = Vec::new(tables.alloc);
    left.push(start)?;
    for _round in 0..u64::MAX {
        let next = next_unseen(&seen, &mut left)?;
        let Some(pair) = next else {
            return Ok(Walked::Covered);
        };
        let turn = turn_at(tables, pair)?;
        match turn {
            Turn::Stops(broken) => {
                let way = way_to(tables, start, &seen.pairs, pair)?;
                return Ok(Walked::Broken(pair, broken, way));
            }
            Turn::Goes(pairs) => {
                seen.enter(pair)?;
                put_first(&mut left, pairs)?;
            }
        }
    }
    Err(AllocError)
}
