//! When two pairs of places are the same.
ghost use Rattle.std.specs.Prelude.{◌≡◌};
ghost use Rattle.evolve_rows.specs.PlaceView.{place_view};
ghost use Rattle.evolve_rows.specs.TurnView.{pair_view};
ghost use Rattle.evolve_walks.specs.Same.{same_spot, same_spots};

use evolve_rows::{Pair, Place};
use same_types::is_same;

// A place that nothing is read at is the same as none.
#[tactic(auto, using(crate::proofs::Sound::outside_is_none, crate::proofs::Sound::none_outside))]
fn are_one_place(a: Place<'_>, b: Place<'_>) -> bool
    ensures { result ≡ same_spot (place_view a.entry) (place_view b.entry) }
{
    match (a, b) {
        (Place::Of(ty), Place::Of(its)) => is_same(ty, its),
        (Place::Variant(name, number), Place::Variant(its, place)) => name == its
            && number == place,
        _ => false,
    }
}

/// Whether the pairs are the same.
pub(crate) fn are_same(a: Pair<'_>, b: Pair<'_>) -> bool
    ensures { result ≡ same_spots (pair_view a.entry) (pair_view b.entry) }
{
    are_one_place(a.old, b.old) && are_one_place(a.new, b.new)
}
