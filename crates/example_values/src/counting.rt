//! The fewest rounds of items, found by counting them again until none changes.
ghost use Rattle.std.specs.Prelude.{◌≡◌, ◌<◌, true, Some, map, slice_get, IfOk};
ghost use Rattle.model_defs.specs.Model.{ConversionsD};
ghost use Rattle.model_defs.specs.Reads.{leads_to_option};
ghost use Rattle.example_parts.specs.SettingView.{conversions_of, models_of};
ghost use Rattle.value_models.specs.ContainersView.{containers_in};
ghost use Rattle.value_models.specs.ContainerView.{container_view, containers_view};
ghost use Rattle.example_values.specs.Fewest.{item_fewest};
ghost use Rattle.example_values.specs.Known.{AreCounted, AreSettled, gives, rounds_at as rounds_at_in, rounds_of};

use crate::bodies::container_rounds;
use crate::given::{given_at, givens};
use crate::rounds::{rounds_at, same_rounds};
use example_parts::Setting;
use item_uses::Places;
use std::alloc::{AllocError, Global};
use value_models::Container;

// The place at which a step is made, from the first or from the last on.
fn place_at(step: usize, count: usize, from_first: bool) -> usize
    requires { step < count }
    ensures { result < count }
{
    if from_first { step } else { count - 1 - step }
}

// Counts each item again by what is known, from the first or from the last on, and says whether one changed.
fn count_again(
    places: &Places<'_>,
    given: &[bool],
    from_first: bool,
    rounds: &mut Vec<Option<u64>>,
) -> Result<bool, AllocError> {
    let containers = places.containers.containers();
    let mut changed = false;
    for step in 0..containers.len() {
        let place = place_at(step, containers.len(), from_first);
        let counted = container_rounds(places, rounds, given_at(given, place), &containers[place])?;
        if place < rounds.len() && !same_rounds(rounds[place], counted) {
            rounds[place] = counted;
            changed = true;
        }
    }
    Ok(changed)
}

// Whether the item at the place stays as it is where it is counted again.
#[tactic(auto, using(crate::proofs::Settled::settled_here))]
fn stays(
    places: &Places<'_>,
    given: &[bool],
    rounds: &[Option<u64>],
    place: usize,
    container: &Container,
) -> Result<bool, AllocError>
    requires here { slice_get (containers_in places.now.containers.now) place ≡ Some (container_view container.now) }
    ensures { let ms = containers_in places.now.containers.now in
        (cs : ConversionsD) → given.now ≡ map (gives ms cs) ms
        → IfOk result (λ b. b ≡ true → rounds_at_in rounds.now place ≡ item_fewest (leads_to_option ms) (rounds_of ms rounds.now) (gives ms cs) (slice_get ms place)) }
{
    let counted = container_rounds(places, rounds, given_at(given, place), container)?;
    Ok(same_rounds(rounds_at(rounds, place), counted))
}

#[tactic(auto, using(crate::proofs::Settled::all_settled))]
fn are_settled(
    places: &Places<'_>,
    given: &[bool],
    rounds: &[Option<u64>],
    containers: &[Container],
) -> Result<bool, AllocError>
    requires whole { containers_view containers.now ≡ containers_in places.now.containers.now }
    ensures { let ms = containers_in places.now.containers.now in
        (cs : ConversionsD) → given.now ≡ map (gives ms cs) ms → IfOk result (λ b. b ≡ true → AreSettled ms cs rounds.now) }
{
    if rounds.len() != containers.len() {
        return Ok(false);
    }
    for (place, container) in containers.iter().enumerate() {
        if !stays(places, given, rounds, place, container)? {
            return Ok(false);
        }
    }
    Ok(true)
}

// Counts once more, and says whether the rounds have settled.
fn settle(
    places: &Places<'_>,
    given: &[bool],
    from_first: bool,
    rounds: &mut Vec<Option<u64>>,
) -> Result<bool, AllocError>
    ensures { let ms = containers_in places.now.containers.now in
        (cs : ConversionsD) → given.now ≡ map (gives ms cs) ms → IfOk result (λ b. b ≡ true → AreSettled ms cs rounds.new.items) }
{
    if count_again(places, given, from_first, rounds)? {
        return Ok(false);
    }
    let settled = are_settled(places, given, rounds, places.containers.containers())?;
    Ok(settled)
}

fn none_built(alloc: Global, count: usize) -> Result<Vec<Option<u64>>, AllocError> {
    let rounds = vec![in alloc; None; count]?;
    Ok(rounds)
}

/// The fewest rounds in which each item is built, by places; None where it is built in none. Items are counted again and
/// again, to and fro, until none changes, which takes at most one turn more than there are items. It fails where memory runs out.
#[tactic(auto, using(crate::proofs::KnownRounds::settled_count))]
pub(crate) fn count_rounds(
    setting: &Setting<'_>,
    places: &Places<'_>,
) -> Result<Vec<Option<u64>>, AllocError>
    requires { containers_in places.now.containers.now ≡ models_of setting.now }
    ensures { IfOk result (λ v. AreCounted (containers_in places.now.containers.now) (conversions_of setting.now) v.items) }
{
    let given = givens(setting, places.containers.containers())?;
    let mut rounds = none_built(setting.alloc, places.containers.count())?;
    for turn in 0..u64::MAX {
        if settle(places, &given, turn % 2 == 0, &mut rounds)? {
            return Ok(rounds);
        }
    }
    Err(AllocError)
}
