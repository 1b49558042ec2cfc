//! In how few rounds types are built.
ghost use Rattle.std.specs.Prelude.{◌≡◌, ◌==◌, Some, if◌then◌else◌, IfOk};
ghost use Rattle.model_defs.specs.Types.{types};
ghost use Rattle.value_models.specs.ContainersView.{containers_in};
ghost use Rattle.value_models.specs.TypeView.{type_view, types_view};
ghost use Rattle.example_values.specs.Fewest.{later as later_in, places_fewest, type_fewest};
ghost use Rattle.example_values.specs.Known.{rounds_of as rounds_of_in};

use crate::rounds::{both, in_first, later, rounds_at};
use example_parts::has_number;
use item_uses::Places;
use std::alloc::AllocError;
use value_models::ValueType;

// The rounds of the item of that name.
fn rounds_of(places: &Places<'_>, rounds: &[Option<u64>], name: &str) -> Option<u64>
    ensures { result ≡ rounds_of_in (containers_in places.now.containers.now) rounds.now name.now }
{
    match places.place(name) {
        Some(place) => rounds_at(rounds, place as usize),
        None => None,
    }
}

// Of an array, by those of its items: one without items takes a round alone.
fn array_rounds(length: u64, inner: Option<u64>) -> Result<Option<u64>, AllocError>
    ensures { IfOk result (λ r. r ≡ (if length == 0 then Some 1 else later_in inner)) }
{
    if length == 0 {
        return Ok(Some(1));
    }
    let rounds = later(inner)?;
    Ok(rounds)
}

/// The fewest rounds in which the type is built, by those of the items at their places; None where it is built in none. It
/// fails where there are more than a u64 holds, as where memory runs out.
#[cycle(counting_types)]
pub(crate) fn type_rounds(
    places: &Places<'_>,
    rounds: &[Option<u64>],
    ty: &ValueType,
) -> Result<Option<u64>, AllocError>
    ensures { IfOk result (λ r. r ≡ type_fewest (rounds_of_in (containers_in places.now.containers.now) rounds.now) (type_view ty.now)) }
{
    match ty {
        ValueType::Boolean
        | ValueType::Text
        | ValueType::Any
        | ValueType::Unit
        | ValueType::Optional(_)
        | ValueType::List(_)
        | ValueType::Set(_)
        | ValueType::Map(_, _) => Ok(Some(1)),
        ValueType::Integer { least, greatest } => Ok(in_first(has_number(*least, *greatest))),
        ValueType::Native(_) | ValueType::Outside => Ok(None),
        ValueType::Boxed(inner) => {
            let inner = type_rounds(places, rounds, inner)?;
            let whole = later(inner)?;
            Ok(whole)
        }
        ValueType::Tuple(parts) => {
            let parts = places_rounds(places, rounds, parts)?;
            let whole = later(parts)?;
            Ok(whole)
        }
        ValueType::Array(inner, length) => {
            let inner = type_rounds(places, rounds, inner)?;
            let whole = array_rounds(*length, inner)?;
            Ok(whole)
        }
        ValueType::Item(name) => Ok(rounds_of(places, rounds, name)),
    }
}

#[cycle(counting_types)]
#[tactic(auto, using(crate::proofs::Backwards::type_before, crate::proofs::Backwards::all_types))]
fn places_rounds(
    places: &Places<'_>,
    rounds: &[Option<u64>],
    tys: &[ValueType],
) -> Result<Option<u64>, AllocError>
    ensures { IfOk result (λ r. r ≡ places_fewest (rounds_of_in (containers_in places.now.containers.now) rounds.now) (types (types_view tys.now))) }
{
    let mut whole = Some(0);
    let mut left = tys.len();
    while left > 0 {
        left -= 1;
        let part = type_rounds(places, rounds, &tys[left])?;
        whole = both(part, whole);
    }
    Ok(whole)
}
