//! What holds of all types, tables and values: each law is the contract of a function that does nothing.

ghost use Rattle.model_defs.specs.Rows.{RowsOfReading};
ghost use Rattle.model_defs.specs.Reach.{ItemsAreNeverSpent};
ghost use Rattle.model_defs.specs.ItemRows.{RowsOfItems};
ghost use Rattle.model_defs.specs.SettledRows.{RowsOfWriting};
ghost use Rattle.model_defs.specs.Flat.{FlatReading, FlatRefusals, FlatStructsAreWritten, RisingNames, SmallNamesApart};

/// What each type, and each kind of contents, reads, in terms of what types read of the parts.
pub fn types_are_read()
    ensures { RowsOfReading }
{}

/// Where no item reaches itself at one value, to allow more items changes nothing.
pub fn items_are_never_spent()
    ensures { ItemsAreNeverSpent }
{}

/// There an item is read as its container says, where each type in it says what it says alone.
pub fn items_are_read()
    ensures { RowsOfItems }
{}

/// What each type, and each kind of contents, writes, in terms of what types write of the parts; and each item, where none reaches itself at one value.
pub fn types_are_written()
    ensures { RowsOfWriting }
{}

/// A struct of required booleans, integers and texts, alone in its table, is read by a plain condition on the members.
pub fn flat_structs_are_read()
    ensures { FlatReading }
{}

/// Where it stops reading a value that it refuses.
pub fn flat_structs_refuse()
    ensures { FlatRefusals }
{}

/// What was read by such a struct is written without the members that no field names.
pub fn flat_structs_are_written()
    ensures { FlatStructsAreWritten }
{}

/// The names of a small value's members rise, and names that rise stand once.
pub fn names_rise()
    ensures { RisingNames }
{}

/// No name stands twice among the members of a small value.
pub fn names_of_small_values_differ()
    ensures { SmallNamesApart }
{}
