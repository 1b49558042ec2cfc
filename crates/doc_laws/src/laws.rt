//! What holds of the docs of every document.
ghost use Rattle.doc_laws.specs.Laws.{DocsHaveItemsNames, ItemNamesDiffer};

/// The items that are emitted for a document begin with those of its definitions, and these have the names, in their order, by which the docs of the definitions are told.
pub fn docs_have_items_names()
    ensures { DocsHaveItemsNames }
{}

/// No two items that are emitted for a document have one name.
pub fn item_names_differ()
    ensures { ItemNamesDiffer }
{}
