//! What holds of every text.
ghost use Rattle.rust_tokens.specs.Laws.{LexedHasNoFault, TreesAreOne, FirstFaultIsOne, EveryTextIsTold, PrintedIsReadAgain};

/// A text that has trees has no faulty place: the two answers of `lex` exclude each other, whatever the spans.
pub fn lexed_has_no_fault()
    ensures { LexedHasNoFault }
{}

/// Two lists of trees that one text has, with the same span, are equal.
pub fn trees_are_one()
    ensures { TreesAreOne }
{}

/// A text has at most one first fault.
pub fn first_fault_is_one()
    ensures { FirstFaultIsOne }
{}

/// Every text has trees or a first fault.
pub fn every_text_is_told()
    ensures { EveryTextIsTold }
{}

/// The text of tokens that `lex` can give, spans aside, has those tokens.
pub fn printed_is_read_again()
    ensures { PrintedIsReadAgain }
{}
