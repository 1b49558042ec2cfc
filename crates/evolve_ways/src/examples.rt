//! Worked examples of ways: each group is the contract of a function that does nothing.

ghost use Rattle.evolve_ways.specs.Examples.{Rows, SmallWays, Texts};

/// What is told of the pairs that each row reaches.
pub fn rows()
    ensures { Rows }
{}

/// Small ways.
pub fn small_ways()
    ensures { SmallWays }
{}

/// Their texts.
pub fn texts()
    ensures { Texts }
{}
