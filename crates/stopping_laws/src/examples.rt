//! Worked examples of the definitions: each group is the contract of a function that does nothing.
ghost use Rattle.stopping_laws.specs.Examples.{Rounds};

/// Items that reach themselves at one value: reading agrees with what reads, with where it stops and with what it settles to.
pub fn items_that_reach_themselves()
    ensures { Rounds }
{}
