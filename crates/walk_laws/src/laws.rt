//! Laws on merges by walks: each is the contract of a function that does nothing.

ghost use Rattle.walk_laws.specs.Laws.{MergesByWalksAreMeets, NeverByWalksIsEmpty};
ghost use Rattle.walk_laws.specs.Levels.{MoreLevelsStay, DeepSidesAreRefused, DepthHasItsWalk};
ghost use Rattle.walk_laws.specs.Counted.{MergesByWalksCount};

/// Whatever the walks, without a Narrowed note a value that both sides admit is admitted by the merge, and without a Widened note one that the merge
/// admits by both; in what is left of a schema the other side counts as refused.
pub fn merges_by_walks_are_meets()
    ensures { MergesByWalksAreMeets }
{}

/// A merge by walks that is never, without a Narrowed note, has no value that all its members admit.
pub fn never_by_walks_is_empty()
    ensures { NeverByWalksIsEmpty }
{}

/// What does not come of too few levels stays as it is with more of them.
pub fn more_levels_stay()
    ensures { MoreLevelsStay }
{}

/// A side whose walk has more steps than are allowed is refused with that walk, the left side first.
pub fn deep_sides_are_refused()
    ensures { DeepSidesAreRefused }
{}

/// The walk of Depth has more steps than are allowed.
pub fn depth_has_its_walk()
    ensures { DepthHasItsWalk }
{}

/// What is not Depth is what the definitions say that count steps, notes and all, walks aside; a level is a step.
pub fn merges_by_walks_count()
    ensures { MergesByWalksCount }
{}
