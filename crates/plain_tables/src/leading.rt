//! Whether types lead to an option.
ghost use Rattle.std.specs.Prelude.{◌≡◌, Some};
ghost use Rattle.model_defs.specs.Reads.{container_leads as container_leads_in, leads_to_option as leads_to_option_in, leads_within, type_leads as type_leads_in};
ghost use Rattle.value_models.specs.TypeView.{type_view};
ghost use Rattle.value_models.specs.ContainersView.{containers_in};
ghost use Rattle.value_models.specs.ContainerView.{container_view};

use value_models::{Container, Containers, ValueType};
use value_parts::{Absence, absence_of, inner_type};

// Where so many items may be entered.
#[cycle(leading)]
#[tactic(auto, using(crate::proofs::Leads::by_option, crate::proofs::Leads::by_nothing, crate::proofs::Leads::by_item))]
fn type_leads(containers: &Containers, left: usize, ty: &ValueType) -> bool
    ensures { result ≡ type_leads_in (leads_within (containers_in containers.now) left) (type_view ty.now) }
{
    match absence_of(ty) {
        Absence::Option => true,
        Absence::Item(name) => item_leads(containers, left, name),
        Absence::Nothing => false,
    }
}

#[cycle(leading)]
fn item_leads(containers: &Containers, left: usize, name: &str) -> bool
    ensures { result ≡ leads_within (containers_in containers.now) left name.now }
{
    if left == 0 {
        return false;
    }
    match containers.named(name) {
        Some(container) => container_leads(containers, left - 1, container),
        None => false,
    }
}

#[cycle(leading)]
#[tactic(auto, using(crate::proofs::Leads::inside, crate::proofs::Leads::not_inside))]
fn container_leads(containers: &Containers, left: usize, container: &Container) -> bool
    ensures { result ≡ container_leads_in (leads_within (containers_in containers.now) left) (Some (container_view container.now)) }
{
    match inner_type(container) {
        Some(inner) => type_leads(containers, left, inner),
        None => false,
    }
}

/// Whether the type is an option, or leads to one through boxes and transparent newtypes.
pub(crate) fn leads_to_option(containers: &Containers, ty: &ValueType) -> bool
    ensures { result ≡ leads_to_option_in (containers_in containers.now) (type_view ty.now) }
{
    type_leads(containers, containers.count() + 1, ty)
}
