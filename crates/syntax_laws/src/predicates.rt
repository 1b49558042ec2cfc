//! Laws of predicates.
ghost use Rattle.syntax_laws.specs.PredicateExamples.{WorkedPredicates};
ghost use Rattle.syntax_laws.specs.Predicates.{PredicatesReadExactly, PredicatesRefusedExactly, PredicatesSpelledOnce};

/// Exactly those predicates are read that the tokens spell.
pub fn exactly_spelled_predicates_are_read()
    ensures { PredicatesReadExactly }
{}

/// Tokens spell at most one list of predicates.
pub fn predicates_are_spelled_once()
    ensures { PredicatesSpelledOnce }
{}

/// An error is read exactly where no predicates are spelled.
pub fn exactly_unspelled_predicates_are_refused()
    ensures { PredicatesRefusedExactly }
{}

/// Which predicates some texts spell, and which they don't.
pub fn worked_predicates_are_spelled()
    ensures { WorkedPredicates }
{}
