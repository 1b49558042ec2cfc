//! Worked documents: each group is the contract of a function that does nothing.

ghost use Rattle.merged_documents.specs.Examples.{Printed};
ghost use Rattle.merged_documents.specs.Lawless.{LawlessTexts};

/// Where a text may be an ipv4 address and no ip address, a root takes what it doesn't admit, and nothing is told.
pub fn lawless_texts()
    ensures { LawlessTexts }
{}

/// Items of small documents, as they are printed.
pub fn printed_items()
    ensures { Printed }
{}
