//! The pairs that a walk entered.
ghost use Rattle.evolve_rows.specs.TurnView.{pairs_view};
ghost use Rattle.evolve_walks.specs.Keyed.{AreKeyed};

use evolve_rows::Pair;
use std::alloc::Global;
use std::collections::BTreeMap;

/// The pairs that were entered, in order, and for each key the place of the last that has it.
#[derive(Drop)]
pub(crate) struct Seen<'a> {
    pub(crate) alloc: Global,
    pub(crate) pairs: Vec<Pair<'a>>,
    pub(crate) last: BTreeMap<String, usize>,
    ghost keyed: { AreKeyed last (pairs_view pairs.items) },
}
