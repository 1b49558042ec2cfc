//! What holds of every item in a module.
ghost use Rattle.module_laws.specs.Laws.{ItemsKeepTokens};

/// The text of an item in a module is its comments and derives, its declaration, and what has no part in it; and the tokens of the declaration are those of the
/// item's printing, but for `pub`, a comma behind the last of the fields without names, and whether punctuation is joint. Items have no parameters, and such names,
/// literals and punctuation as some text has.
pub fn items_keep_tokens()
    ensures { ItemsKeepTokens }
{}
