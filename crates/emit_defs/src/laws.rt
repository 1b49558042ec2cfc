//! What holds of all tables: each law is the contract of a function that does nothing.

ghost use Rattle.emit_defs.specs.Boxing.{BoxesAreExact, NoneContainsItself};
ghost use Rattle.emit_defs.specs.Formed.{NamedTablesAreFormed};
ghost use Rattle.emit_defs.specs.Law.{EmissionKeepsMeaning, ReferencesAreFollowed, TreesAreOfTheirTable};
ghost use Rattle.emit_defs.specs.Spelled.{TypesAreSpelled};

/// The containers that are meant read what an entry of the table takes.
pub fn emission_keeps_meaning()
    ensures { EmissionKeepsMeaning }
{}

/// Each tree, and each item that a reference leads to, is an entry of its table.
pub fn trees_are_of_their_table()
    ensures { TreesAreOfTheirTable }
{}

/// Types as trees spell the types that are meant.
pub fn types_are_spelled()
    ensures { TypesAreSpelled }
{}

/// No container that is emitted contains itself by value.
pub fn none_contains_itself()
    ensures { NoneContainsItself }
{}

/// A reference takes what the item that it leads to takes.
pub fn references_are_followed()
    ensures { ReferencesAreFollowed }
{}

/// A use by value is boxed exactly where the used item reaches the using one.
pub fn boxes_are_exact()
    ensures { BoxesAreExact }
{}

/// Naming gives a rest the name of no field, and keeps what else emission asks of tables.
pub fn named_tables_are_formed()
    ensures { NamedTablesAreFormed }
{}
