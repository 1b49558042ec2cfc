//! How many steps a walk has.
ghost use Rattle.std.specs.Prelude.{◌≡◌};
ghost use Rattle.merge_walks.specs.Carried.{has_more_steps};
ghost use Rattle.merged_rows.specs.Starts.{walk_by};

use crate::start::Start;
use row_findings::Steps;

/// Whether the walk of what stands at the end of a trail has more than so many steps. It takes no memory.
#[tactic(auto, using(crate::proofs::Counted::counts))]
pub fn is_deep(start: &Start, trail: &Vec<Steps<'_>>, most: u32) -> bool
    ensures { result ≡ has_more_steps most (walk_by start.now.walk trail.now.items) }
{
    start.walk.locations.len().saturating_add(trail.len()) > most as usize + 1
}
