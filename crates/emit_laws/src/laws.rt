//! What holds of the items of all tables: each law is the contract of a function that does nothing.

ghost use Rattle.emit_laws.specs.Laws.{ItemsAreInside, ItemsAreRead, ItemsMeanEntries, NothingIsTold, RootsAreRead, TreesAreRoots};

/// No item has a diagnostic.
pub fn nothing_is_told()
    ensures { NothingIsTold }
{}

/// Each item is within the forms that the reader of values reads.
pub fn items_are_inside()
    ensures { ItemsAreInside }
{}

/// The items are read as the containers that are meant.
pub fn items_are_read()
    ensures { ItemsAreRead }
{}

/// The root's type is known, and is the type that is meant.
pub fn roots_are_read()
    ensures { RootsAreRead }
{}

/// The containers of the items read what an entry of the table takes.
pub fn items_mean_entries()
    ensures { ItemsMeanEntries }
{}

/// Each tree of a table can be its root.
pub fn trees_are_roots()
    ensures { TreesAreRoots }
{}
