//! Whether a pair was entered, looked up by its key.
ghost use Rattle.std.specs.Prelude.{◌≡◌, [], ◌∷◌, true, IfOk, OnOk};
ghost use Rattle.std.specs.List.{list_any};
ghost use Rattle.evolve_rows.specs.TurnView.{pair_view, pairs_view};
ghost use Rattle.evolve_walks.specs.Same.{same_spots};
ghost use Rattle.evolve_walks.specs.Walking.{seen_view};

use crate::entered::Seen;
use crate::keys::key_of;
use crate::same::are_same;
use evolve_rows::Pair;
use std::alloc::{AllocError, Global};
use std::collections::BTreeMap;

impl<'a> Seen<'a> {
    /// No pair.
    pub(crate) fn new(alloc: Global) -> Seen<'a>
        ensures { seen_view result ≡ [] }
    {
        Seen {
            alloc,
            pairs: Vec::new(alloc),
            last: BTreeMap::new(alloc),
        }
    }

    fn is_at(&self, pair: Pair<'a>, place: usize) -> bool
        ensures { result ≡ true → list_any (same_spots (pair_view pair.entry)) (pairs_view self.now.pairs.items) ≡ true }
    {
        match self.pairs.get(place) {
            Some(other) => are_same(pair, *other),
            None => false,
        }
    }

    fn is_among(&self, pair: Pair<'a>) -> bool
        ensures { result ≡ list_any (same_spots (pair_view pair.entry)) (pairs_view self.now.pairs.items) }
    {
        for other in &self.pairs {
            if are_same(pair, *other) {
                return true;
            }
        }
        false
    }

    // The last pair of that key is mostly the same; two types that no reader knows have one key, and differ.
    fn is_held(&self, pair: Pair<'a>, place: usize) -> bool
        ensures { result ≡ list_any (same_spots (pair_view pair.entry)) (pairs_view self.now.pairs.items) }
    {
        if self.is_at(pair, place) {
            return true;
        }
        self.is_among(pair)
    }

    /// Whether the pair was entered. It fails where memory runs out.
    pub(crate) fn has(&self, pair: Pair<'a>) -> Result<bool, AllocError>
        ensures { IfOk result (λ b. b ≡ list_any (same_spots (pair_view pair.entry)) (seen_view self.now)) }
    {
        let key = key_of(self.alloc, pair)?;
        match self.last.get(key.as_str()) {
            Some(place) => Ok(self.is_held(pair, *place)),
            None => Ok(false),
        }
    }

    /// Enters a pair. It fails where memory runs out.
    pub(crate) fn enter(&mut self, pair: Pair<'a>) -> Result<(), AllocError>
        ensures { OnOk result (seen_view self.new ≡ pair_view pair.entry ∷ seen_view self.old) }
    {
        let key = key_of(self.alloc, pair)?;
        let _ = self.last.insert(key, self.pairs.len())?;
        self.pairs.push(pair)?;
        Ok(())
    }
}
