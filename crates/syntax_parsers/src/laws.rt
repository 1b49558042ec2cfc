//! Laws of the definitions, each the contract of an empty function.
ghost use Rattle.syntax_parsers.specs.Lifetimes.{ReadAsSpelled, SpelledOnce};
ghost use Rattle.syntax_parsers.specs.SpellingLaws.{ReadExactly, SpelledAtMostOnce, RefusedExactly, PrintedIsSpelled, ReadIsPrinted, FrontReadExactly};
ghost use Rattle.syntax_parsers.specs.SpellingAside.{SpelledAside, SpelledOnceAside, PrintedIsRead};
ghost use Rattle.syntax_parsers.specs.SpellingExamples.{WorkedSpellings};
ghost use Rattle.syntax_parsers.specs.Worked.{WorkedTypes};

/// Exactly those lifetimes are read that the tokens spell.
pub fn lifetimes_are_read_as_spelled()
    ensures { ReadAsSpelled }
{}

/// Tokens spell at most one list of lifetimes.
pub fn lifetimes_are_spelled_once()
    ensures { SpelledOnce }
{}

/// What texts of types are read as, by computation: trees, and errors with their places.
pub fn worked_types_are_read()
    ensures { WorkedTypes }
{}

/// Exactly what tokens spell is read from them, of types, paths, paths of expressions and bounds.
pub fn exactly_what_is_spelled_is_read()
    ensures { ReadExactly }
{}

/// Tokens spell at most one tree of a kind.
pub fn trees_are_spelled_once()
    ensures { SpelledAtMostOnce }
{}

/// An error is read exactly where no tree is spelled.
pub fn exactly_what_is_not_spelled_is_refused()
    ensures { RefusedExactly }
{}

/// A tree of parsed form is spelled by the tokens that it is printed as, and so read from them again.
pub fn what_is_printed_is_spelled()
    ensures { PrintedIsSpelled }
{}

/// Before the `:` of a predicate, a comma or the end, exactly what is printed is read.
pub fn exactly_what_is_printed_in_front_is_read()
    ensures { FrontReadExactly }
{}

/// What stands in front of other tokens is read as what the tokens up to those print.
pub fn what_is_read_is_printed()
    ensures { ReadIsPrinted }
{}

/// Which types some texts spell, and which they don't.
pub fn worked_types_are_spelled()
    ensures { WorkedSpellings }
{}

/// Tokens that are the same, spans aside, spell trees that are the same, spans aside.
pub fn spans_are_passed_over()
    ensures { SpelledAside }
{}

/// Spans aside, tokens spell at most one tree of a kind.
pub fn trees_are_spelled_once_aside()
    ensures { SpelledOnceAside }
{}

/// The printing of a tree of parsed form, with whatever spans, is read as that tree, spans aside.
pub fn what_is_printed_is_read()
    ensures { PrintedIsRead }
{}
