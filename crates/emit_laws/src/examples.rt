//! Worked examples of items that are read back.

ghost use Rattle.emit_laws.specs.Examples.{EmittedWhole, ReadBack};

/// Items of small tables: nothing is told of them, and they are read as is meant.
pub fn read_back()
    ensures { ReadBack }
{}

/// A table that can be emitted: nothing is told of its items, and they read what the table takes.
pub fn emitted_whole()
    ensures { EmittedWhole }
{}
