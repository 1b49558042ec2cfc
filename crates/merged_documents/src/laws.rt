//! What holds of the conversion of documents that were read, where rows may merge: each law is the contract of a function that does nothing.

ghost use Rattle.merged_documents.specs.Laws.{DocumentsMeanItems, DocumentsMeanModels, ReadDocumentsAgree, ReadDocumentsArePlanned, ReadDocumentsMayMerge, ReadPlansAgree, ReadPlansAreEmittable, ReadRootsAgree, ReadTablesAreFit, ReadTablesAreShaped};

/// A document that was read is fit for merging.
pub fn read_documents_may_merge()
    ensures { ReadDocumentsMayMerge }
{}

/// Of a document that was read each schema of the conversion tree agrees with its entry, one way at a time.
pub fn read_documents_agree()
    ensures { ReadDocumentsAgree }
{}

/// So does its root with its tree in the table.
pub fn read_roots_agree()
    ensures { ReadRootsAgree }
{}

/// In the table of a document that was read references lead and end, and names of fields differ.
pub fn read_tables_are_fit()
    ensures { ReadTablesAreFit }
{}

/// The named table of a document that was read is sound, and its names are good.
pub fn read_documents_are_planned()
    ensures { ReadDocumentsArePlanned }
{}

/// Of a document that was read the root agrees with its tree in the named table.
pub fn read_plans_agree()
    ensures { ReadPlansAgree }
{}

/// The table of a document that was read is as emission asks.
pub fn read_tables_are_shaped()
    ensures { ReadTablesAreShaped }
{}

/// With names it can be written.
pub fn read_plans_are_emittable()
    ensures { ReadPlansAreEmittable }
{}

/// The containers that are meant read what the document admits.
pub fn documents_mean_models()
    ensures { DocumentsMeanModels }
{}

/// The items that are written, read back, read what the document admits.
pub fn documents_mean_items()
    ensures { DocumentsMeanItems }
{}
