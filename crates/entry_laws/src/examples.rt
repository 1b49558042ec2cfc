//! Worked examples of what ids take.

ghost use Rattle.entry_laws.specs.Examples.{StrayIds, Taking};

/// Spaces that hold small tables, and an id that nothing leads out of.
pub fn taking()
    ensures { Taking }
{}

/// A space that holds a table, with an id at which no tree stands.
pub fn stray_ids()
    ensures { StrayIds }
{}
