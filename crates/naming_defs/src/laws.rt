//! What holds of naming: each law is the contract of a function that does nothing.

ghost use Rattle.naming_defs.specs.Good.{NumberedNamesAreGood};
ghost use Rattle.naming_defs.specs.Laws.{NamedTablesAreSound, NamesAreGood, NamingKeepsMeaning};

/// Naming changes nothing of what the root of a table takes.
pub fn naming_keeps_meaning()
    ensures { NamingKeepsMeaning }
{}

/// A table whose references lead and end is sound when its items are named.
pub fn named_tables_are_sound()
    ensures { NamedTablesAreSound }
{}

/// Names are good ones, and those within a container differ.
pub fn names_are_good()
    ensures { NamesAreGood }
{}

/// Names that are numbered are identifiers, and no words of Rust's own.
pub fn numbered_names_are_good()
    ensures { NumberedNamesAreGood }
{}
