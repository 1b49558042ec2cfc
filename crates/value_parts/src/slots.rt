//! Members by the fields that take them.
ghost use Rattle.std.specs.Prelude.{◌≡◌, ◌++◌, ◌∷◌, []};
ghost use Rattle.value_parts.specs.Slots.{first_two};
ghost use Rattle.value_parts.specs.Entries.{entry_view, slot_view};

use crate::members::Member;

/// What stands for a field among the members: as many as decide.
#[derive(Clone, Copy)]
pub enum Slot<'a> {
    Empty,
    One(Member<'a>),
    Two(Member<'a>, Member<'a>),
}

/// The slot with one member more.
pub(crate) fn with_member<'a>(slot: Slot<'a>, member: Member<'a>) -> Slot<'a>
    ensures { slot_view result ≡ first_two (slot_view slot.entry ++ entry_view member.entry ∷ []) }
{
    match slot {
        Slot::Empty => Slot::One(member),
        Slot::One(first) => Slot::Two(first, member),
        Slot::Two(first, second) => Slot::Two(first, second),
    }
}
