//! What holds of segments and of rewritten bytes: each law is the contract of a function that does nothing.

ghost use Rattle.whole_numbers.specs.Laws.{CutsLongest, IsSettled, NeverGrows};

/// The segments are the bytes, cut so that each run is as long as can be.
pub fn runs_are_longest()
    ensures { CutsLongest }
{}

/// What is rewritten once stays as it is.
pub fn rewritten_stays()
    ensures { IsSettled }
{}

/// Rewritten bytes are no more than they were.
pub fn never_grows()
    ensures { NeverGrows }
{}
