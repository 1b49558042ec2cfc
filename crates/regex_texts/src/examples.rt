//! Worked examples of the definition: each group is the contract of a function that does nothing.

ghost use Rattle.regex_texts.specs.Examples.{EndExamples, SearchExamples};
ghost use Rattle.regex_texts.specs.Names.{NamesAreRead};

/// Patterns with texts that have them, and with texts that don't.
pub fn search_examples()
    ensures { SearchExamples }
{}

/// The same, where the pattern speaks of the ends of the text.
pub fn end_examples()
    ensures { EndExamples }
{}

/// Each name that a plain pattern may have behind `\p` is one that `regex` reads.
pub fn names_are_read()
    ensures { NamesAreRead }
{}
