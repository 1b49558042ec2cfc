//! The laws of conversion where rows may merge: each is the contract of a function that does nothing.

ghost use Rattle.conversion_laws.specs.Keeping.{MergesAreProper, MergesEnd};
ghost use Rattle.conversion_laws.specs.Levels.{RowsStay, TreesStay, EntriesStay, ToldStays, DocumentsStay};
ghost use Rattle.conversion_laws.specs.Ordered.{NotesAreOrdered, SameNotesAreOne};
ghost use Rattle.merging_laws.specs.Conversion.{ConversionAgreesWithMerges, RootAgreesWithMerges};

/// In a document without faults, without narrowed notes each value that a schema of the conversion tree admits is one that its entry takes, and without
/// widened notes the other way round, whatever rows merge.
pub fn conversion_agrees_with_merges()
    ensures { ConversionAgreesWithMerges }
{}

/// So does the root with its tree in the table.
pub fn root_agrees_with_merges()
    ensures { RootAgreesWithMerges }
{}

/// In what merges make of schemas that are in order names differ, references lead, and a `#` is known to the document.
pub fn merges_are_proper()
    ensures { MergesAreProper }
{}

/// References lead no further at one value in what merges make than on both sides.
pub fn merges_end()
    ensures { MergesEnd }
{}

/// What a row merges stays with more levels, unless it came of too few.
pub fn rows_stay()
    ensures { RowsStay }
{}

/// A tree without too few levels stays with more of them, but for entries.
pub fn trees_stay()
    ensures { TreesStay }
{}

/// Where no walk has too many steps either, entries stay with the tree.
pub fn entries_stay()
    ensures { EntriesStay }
{}

/// Notes and faults of a document stay where no fault is of too few levels.
pub fn told_stays()
    ensures { ToldStays }
{}

/// A document without faults is converted to the same with more levels.
pub fn documents_stay()
    ensures { DocumentsStay }
{}

/// The notes of a document come in their order, each once: by place, then by kind, then narrowed before widened. They are those that they were made of.
pub fn notes_are_ordered()
    ensures { NotesAreOrdered }
{}

/// Notes of one place, kind and way are one note.
pub fn same_notes_are_one()
    ensures { SameNotesAreOne }
{}
