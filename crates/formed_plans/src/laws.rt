//! What holds of all tables of documents whose rows may merge: the law is the contract of a function that does nothing.

ghost use Rattle.formed_plans.specs.Laws.{PlansAreFormed};

pub use merged_documents::laws::read_documents_are_planned;

/// The trees of a document's table, with names, are formed.
pub fn plans_are_formed()
    ensures { PlansAreFormed }
{}
