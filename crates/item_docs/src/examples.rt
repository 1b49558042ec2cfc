//! Worked examples.
ghost use Rattle.item_docs.specs.Examples.{Docs};

/// Small documents, and what is said of their items.
pub fn docs()
    ensures { Docs }
{}
