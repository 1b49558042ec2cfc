//! Which items' rules give values.
ghost use Rattle.std.specs.Prelude.{◌≡◌, false, map, slice_index_or, IfOk};
ghost use Rattle.value_models.specs.ContainerView.{container_view, containers_view};
ghost use Rattle.example_parts.specs.SettingView.{conversions_of, models_of};
ghost use Rattle.example_values.specs.Known.{gives as gives_in};

use example_parts::{Setting, ruled_value};
use std::alloc::AllocError;
use value_models::Container;

fn gives(setting: &Setting<'_>, container: &Container) -> Result<bool, AllocError>
    ensures { IfOk result (λ b. b ≡ gives_in (models_of setting.now) (conversions_of setting.now) (container_view container.now)) }
{
    if !container.try_from {
        return Ok(false);
    }
    let value = ruled_value(setting, container)?;
    Ok(value.is_some())
}

/// For each container whether it has a rule that binds, and the rule gives a value.
#[tactic(auto, using(crate::proofs::Settled::given_turn, crate::proofs::Settled::given_end))]
pub(crate) fn givens(
    setting: &Setting<'_>,
    containers: &[Container],
) -> Result<Vec<bool>, AllocError>
    ensures { IfOk result (λ v. v.items ≡ map (gives_in (models_of setting.now) (conversions_of setting.now)) (containers_view containers.now)) }
{
    let mut given = Vec::new(setting.alloc);
    for container in containers {
        let one = gives(setting, container)?;
        given.push(one)?;
    }
    Ok(given)
}

/// Whether the rule of the container at a place gives a value.
pub(crate) fn given_at(given: &[bool], place: usize) -> bool
    ensures { result ≡ slice_index_or given.now place false }
{
    given.get(place).copied().unwrap_or(false)
}
