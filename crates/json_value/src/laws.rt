//! What holds of all values: each law is the contract of a function that does nothing.

ghost use Rattle.json_value.specs.Laws.{EqualityIsDecided, ChildrenAreSmaller, PartsAreSmall, SmallIsWhole, ListsAreItems};

/// `same` decides equality.
pub fn equality_is_decided()
    ensures { EqualityIsDecided }
{}

/// Items, and the names and values of members, are smaller than their owner.
pub fn children_are_smaller()
    ensures { ChildrenAreSmaller }
{}

/// The parts of a small value are small.
pub fn parts_are_small()
    ensures { PartsAreSmall }
{}

/// A small value has no fraction.
pub fn small_is_whole()
    ensures { SmallIsWhole }
{}

/// Items and members are the lists of their values and entries.
pub fn lists_are_items()
    ensures { ListsAreItems }
{}
