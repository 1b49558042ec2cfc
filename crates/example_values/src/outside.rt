//! Types of which no example is made.
ghost use Rattle.std.specs.Prelude.{◌≡◌, ◌&&◌, IfOk};
ghost use Rattle.example_defs.specs.Outside.{is_odd as is_odd_in};
ghost use Rattle.example_parts.specs.SettingView.{conversions_of, models_of};
ghost use Rattle.item_uses.specs.Reached.{is_marked};
ghost use Rattle.value_models.specs.ContainersView.{containers_in};
ghost use Rattle.value_models.specs.ContainerView.{container_view, containers_view};
ghost use Rattle.value_models.specs.TypeView.{type_view};
ghost use Rattle.example_values.specs.Causes.{IsCause, IsFirstOdd, cause_of as cause_of_in};

use example_parts::{Setting, is_odd, names_native};
use item_uses::{Places, come};
use std::alloc::AllocError;
use value_models::{Container, ValueType};

// Whether the item at the place is come to, and is odd.
fn is_odd_at(setting: &Setting<'_>, flags: &[bool], place: usize, container: &Container) -> bool
    ensures { result ≡ (is_marked flags.now place && is_odd_in (models_of setting.now) (conversions_of setting.now) (container_view container.now)) }
{
    let come_to = flags.get(place).copied().unwrap_or(false);
    come_to && is_odd(setting, container)
}

// A place as it is told: there is no memory for more.
fn told_place(place: usize) -> Result<u32, AllocError>
    ensures { IfOk result (λ p. p ≡ place) }
{
    match u32::try_from(place) {
        Ok(place) => Ok(place),
        Err(_) => Err(AllocError),
    }
}

// The first item that is come to and is odd.
#[tactic(auto, using(crate::proofs::Answered::odd_stop, crate::proofs::Answered::odd_end))]
fn first_odd(
    setting: &Setting<'_>,
    flags: &[bool],
    containers: &[Container],
) -> Result<Option<u32>, AllocError>
    requires whole { containers_view containers.now ≡ models_of setting.now }
    ensures { IfOk result (IsFirstOdd (models_of setting.now) (conversions_of setting.now) flags.now) }
{
    for (place, container) in containers.iter().enumerate() {
        if is_odd_at(setting, flags, place, container) {
            let place = told_place(place)?;
            return Ok(Some(place));
        }
    }
    Ok(None)
}

fn cause_of(found: Option<u32>) -> Option<Option<u32>>
    ensures { result ≡ cause_of_in found }
{
    match found {
        Some(place) => Some(Some(place)),
        None => None,
    }
}

/// Why no example of the type is made: the type itself, or else the first item for which it is; None where nothing keeps one
/// from being made.
pub(crate) fn outside(
    setting: &Setting<'_>,
    places: &Places<'_>,
    ty: &ValueType,
) -> Result<Option<Option<u32>>, AllocError>
    requires same { containers_in places.now.containers.now ≡ models_of setting.now }
    ensures { IfOk result (IsCause (models_of setting.now) (conversions_of setting.now) (type_view ty.now)) }
{
    if names_native(ty) {
        return Ok(Some(None));
    }
    let flags = come(setting.alloc, places, ty)?;
    let found = first_odd(setting, &flags, setting.containers.containers())?;
    Ok(cause_of(found))
}
