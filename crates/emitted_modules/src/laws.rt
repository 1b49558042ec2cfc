//! What holds of the items that are emitted for a table.
ghost use Rattle.emitted_modules.specs.Laws.{EmittedItemsKeepTokens, ItemsOfProgramsKeepTokens};

/// The tokens of each emitted item in a module, less comments and derives, are those of its printing, but for `pub`, a comma behind the last of the fields without
/// names, and whether punctuation is joint. The names in JSON that the table has are in UTF-8.
pub fn emitted_items_keep_tokens()
    ensures { EmittedItemsKeepTokens }
{}

/// The same of what a program holds that is emitted for a table, as a report does. Nothing is asked of the names in JSON then, since each text of a program is in UTF-8.
pub fn items_of_programs_keep_tokens()
    ensures { ItemsOfProgramsKeepTokens }
{}
