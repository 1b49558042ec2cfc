//! Laws of texts: the parsers of texts, by their clauses, answer exactly the trees that texts spell.
ghost use Rattle.syntax_laws.specs.Kinds.{KindsTold, PlacesTold};
ghost use Rattle.syntax_laws.specs.TextExamples.{WorkedTexts};
ghost use Rattle.syntax_laws.specs.TextSpelling.{TypesAnsweredExactly, PathsAnsweredExactly, ExprPathsAnsweredExactly, PredicatesAnsweredExactly, LifetimesAnsweredExactly, TextsSpelledOnce};

/// `parse_type` answers exactly the type that the text spells.
pub fn types_are_answered_exactly()
    ensures { TypesAnsweredExactly }
{}

/// `parse_path` answers exactly the path that the text spells.
pub fn paths_are_answered_exactly()
    ensures { PathsAnsweredExactly }
{}

/// `parse_expr_path` answers exactly the path that the text spells.
pub fn expr_paths_are_answered_exactly()
    ensures { ExprPathsAnsweredExactly }
{}

/// `parse_where` answers exactly the predicates that the text spells.
pub fn predicates_are_answered_exactly()
    ensures { PredicatesAnsweredExactly }
{}

/// `parse_lifetimes` answers exactly the lifetimes that the text spells.
pub fn lifetimes_are_answered_exactly()
    ensures { LifetimesAnsweredExactly }
{}

/// Each parser tells an error of kind `Lex` exactly where the text has no tokens, and of another kind only where it has some.
pub fn kinds_are_told_exactly()
    ensures { KindsTold }
{}

/// Each error of syntax that a parser tells stands at the literal.
pub fn errors_stand_at_the_literal()
    ensures { PlacesTold }
{}

/// A text spells at most one tree of a kind.
pub fn texts_are_spelled_once()
    ensures { TextsSpelledOnce }
{}

/// What some texts spell, and what they don't.
pub fn worked_texts_are_spelled()
    ensures { WorkedTexts }
{}
