//! What holds of all spaces: each law is the contract of a function that does nothing.

ghost use Rattle.entry_space.specs.Laws.{SpacesGrow, SpacesStayApart, HeldTreesStay, FilledTreesStay};

use entry_defs::laws::trees_stay;

/// A space with one entry more is as it was, or has that one at its end.
pub fn spaces_grow()
    ensures { SpacesGrow }
{}

/// No two entries have one key, whatever is entered.
pub fn spaces_stay_apart()
    ensures { SpacesStayApart }
{}

/// What a space holds it still holds after an entry is entered.
pub fn held_trees_stay()
    ensures { HeldTreesStay }
{
    trees_stay();
}

/// What a space holds it still holds after an item is filled in that held itself alone.
pub fn filled_trees_stay()
    ensures { FilledTreesStay }
{}
