//! What a merge admits, whether or not null may stand for an absent member: each law is the contract of a function that does nothing.

ghost use Rattle.merge_laws.specs.Laws.{MergesAreMeets, NeverIsEmpty};
ghost use Rattle.merge_laws.specs.MoreSteps.{MoreStepsStay};
ghost use Rattle.merge_laws.specs.Bare.{BareMergesEnd, BareCallsEnd};

/// Without a Narrowed note a value that both sides admit is admitted by the merge, and without a Widened note one that the merge admits by both;
/// where the merge is never without a Narrowed note there is none. In what is left of a schema the other side counts as refused.
pub fn merges_are_meets()
    ensures { MergesAreMeets }
{}

/// A merge that is never, without a Narrowed note, has no value that all its members admit.
pub fn never_is_empty()
    ensures { NeverIsEmpty }
{}

/// What is not Depth stays as it is where more steps may be taken.
pub fn more_steps_stay()
    ensures { MoreStepsStay }
{}

/// Schemas without references, subschemas and names by pattern merge without a fault where there are steps enough for their children.
pub fn bare_merges_end()
    ensures { BareMergesEnd }
{}

/// So does each call on such schemas: one or two merged, one without subschemas beside it; and one less another is never Depth.
pub fn bare_calls_end()
    ensures { BareCallsEnd }
{}
