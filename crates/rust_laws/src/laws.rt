//! What holds of every page: each law is the contract of a function that does nothing.
ghost use Rattle.rust_laws.specs.Laws.{DocsStandAtTheirItems, PagesKeepItems};

/// The module on a page is of the report's items, and the tokens of the declaration of each, less comments and derives, are those of its printing, but for `pub`, a comma
/// behind the last of the fields without names, and whether punctuation is joint.
pub fn pages_keep_items()
    ensures { PagesKeepItems }
{}

/// The first items on a page are those of the definitions, in their order, and above each stands what the schema of its definition says. Above each of the others, which have other names, stands
/// the first that is said of an item of its name by the root and by what stands below the definitions and the root.
pub fn docs_stand_at_their_items()
    ensures { DocsStandAtTheirItems }
{}
