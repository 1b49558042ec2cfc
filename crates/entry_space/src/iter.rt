//! The entries of a space, in order.
ghost use Rattle.std.specs.Prelude.{◌≡◌, [], ◌∷◌, MatchOption, map};
ghost use Rattle.entry_types.specs.View.{entry_view};
ghost use Rattle.entry_space.specs.Seen.{entries_left};

use crate::key::Key;
use entry_types::TypeEntry;
use indexmap::map::Iter;

/// The entries of a space that are left, in the order of their ids.
#[derive(Drop)]
pub struct TypeEntries<'a> {
    left: Iter<'a, Key, TypeEntry>,
}

impl<'a> TypeEntries<'a> {
    pub(crate) fn new(left: Iter<'a, Key, TypeEntry>) -> TypeEntries<'a>
        ensures { entries_left result ≡ map (λ p. entry_view p.1) left.entry }
    {
        TypeEntries { left }
    }

    /// The first entry that is left, or nothing once none is. It takes no memory.
    pub fn next(&mut self) -> Option<&'a TypeEntry>
        ensures { MatchOption result ((entries_left self.old ≡ []) × (entries_left self.new ≡ [])) (λ e. entries_left self.old ≡ entry_view e.now ∷ entries_left self.new) }
    {
        match self.left.next() {
            Some((_, entry)) => Some(entry),
            None => None,
        }
    }
}
