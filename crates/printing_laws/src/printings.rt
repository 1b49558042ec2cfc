//! What is printed of trees whose parts are such as texts have.
ghost use Rattle.printing_laws.specs.Laws.{PrintingsAreOfText};

/// A tree each identifier, literal and embedded stream of which some text has is printed as tokens that some text has.
pub fn printings_are_of_text()
    ensures { PrintingsAreOfText }
{}
