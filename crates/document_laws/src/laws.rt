//! What holds of documents that were read: each law is the contract of a function that does nothing.

ghost use Rattle.document_laws.specs.Laws.{DocumentsAreProper, DocumentsAreSized};

/// In a document that was read names differ and references lead.
pub fn documents_are_proper()
    ensures { DocumentsAreProper }
{}

/// And fewer than 2^32 places are asked of a list.
pub fn documents_are_sized()
    ensures { DocumentsAreSized }
{}
