//! Which item keeps a table from being plain.
ghost use Rattle.std.specs.Prelude.{◌≡◌, Some, if◌then◌else◌, slice_get, IfOk, OnOk};
ghost use Rattle.name_tables.specs.Names.{entered as entered_in};
ghost use Rattle.conversion_table.specs.Conversions.{conversions_view};
ghost use Rattle.value_models.specs.TypeView.{type_view};
ghost use Rattle.value_models.specs.ContainerView.{container_view, containers_view};
ghost use Rattle.value_models.specs.ContainersView.{containers_in};
ghost use Rattle.value_kinds.specs.Reaching.{IsFirstReaching};
ghost use Rattle.describe_defs.specs.NotPlain.{first_failing as first_failing_in, item_fails as item_fails_in, why_not_plain as why_not_plain_in};
ghost use Rattle.plain_tables.specs.Apart.{is_entered};
ghost use Rattle.plain_tables.specs.Twice.{AreTwice, IsBefore, is_there as is_there_in};

use crate::items::is_plain_item;
use crate::names::enter;
use crate::types::is_plain_type;
use conversion_table::Conversions;
use name_tables::NameTable;
use std::alloc::{AllocError, Global};
use value_kinds::ModelTable;
use value_models::{Container, ValueType};

// ---- names that come twice

// Enters a name among those that were seen; one that was seen before comes again.
fn count_name(seen: &mut NameTable, again: &mut NameTable, name: &str) -> Result<(), AllocError>
    ensures seen { OnOk result (seen.new ≡ entered_in name.now 0 seen.old) }
    ensures again { OnOk result (again.new ≡ (if is_entered name.now seen.old then entered_in name.now 0 again.old else again.old)) }
{
    if enter(seen, name)? {
        return Ok(());
    }
    enter(again, name)?;
    Ok(())
}

#[tactic(auto, using(crate::proofs::Counted::twice_begins, crate::proofs::Counted::twice_turn, crate::proofs::Counted::twice_end))]
fn names_again(alloc: Global, containers: &[Container]) -> Result<NameTable, AllocError>
    ensures { IfOk result (λ t. AreTwice (containers_view containers.now) t) }
{
    let mut seen = NameTable::new(alloc);
    let mut again = NameTable::new(alloc);
    for container in containers {
        count_name(&mut seen, &mut again, &container.name)?;
    }
    Ok(again)
}

// ---- the first that fails

fn is_there(first: Option<usize>, place: usize) -> bool
    ensures { result ≡ is_there_in first place }
{
    match first {
        Some(first) => first == place,
        None => false,
    }
}

// Whether the item at the place fails, where none before it reaches itself.
#[tactic(auto, using(crate::proofs::Failing::fails_again, crate::proofs::Failing::fails_is))]
fn item_fails(
    alloc: Global,
    table: &ModelTable,
    conversions: &Conversions,
    again: &NameTable,
    first: Option<usize>,
    place: usize,
    container: &Container,
) -> Result<bool, AllocError>
    requires twice { AreTwice (containers_in table.now.containers) again.now }
    requires reaching { IsFirstReaching (containers_in table.now.containers) first }
    requires before { IsBefore first place }
    requires here { slice_get (containers_in table.now.containers) place ≡ Some (container_view container.now) }
    ensures { IfOk result (λ b. b ≡ item_fails_in (containers_in table.now.containers) (conversions_view conversions.now) (container_view container.now)) }
{
    if again.place(&container.name).is_some() {
        return Ok(true);
    }
    let plain = is_plain_item(alloc, table, conversions, container)?;
    Ok(!plain || is_there(first, place))
}

// A place as it is told: there is no memory for more.
fn short_place(place: usize) -> Result<u32, AllocError>
    ensures { IfOk result (λ p. p ≡ place) }
{
    match u32::try_from(place) {
        Ok(place) => Ok(place),
        Err(_) => Err(AllocError),
    }
}

#[tactic(auto, using(crate::proofs::Failing::nothing_yet, crate::proofs::Failing::here, crate::proofs::Failing::failing_stop, crate::proofs::Failing::failing_turn, crate::proofs::Failing::failing_end))]
fn first_failing(
    alloc: Global,
    table: &ModelTable,
    conversions: &Conversions,
    again: &NameTable,
    first: Option<usize>,
    containers: &[Container],
) -> Result<Option<u32>, AllocError>
    requires whole { containers_view containers.now ≡ containers_in table.now.containers }
    requires twice { AreTwice (containers_in table.now.containers) again.now }
    requires reaching { IsFirstReaching (containers_in table.now.containers) first }
    ensures { let ms = containers_in table.now.containers in
        IfOk result (λ o. o ≡ first_failing_in ms (conversions_view conversions.now) 0 ms) }
{
    for (place, container) in containers.iter().enumerate() {
        if item_fails(alloc, table, conversions, again, first, place, container)? {
            let place = short_place(place)?;
            return Ok(Some(place));
        }
    }
    Ok(None)
}

/// Nothing where the table with the root is plain; else the place of the first item that fails, or none where the root
/// does. It fails where memory runs out.
#[tactic(auto, using(crate::proofs::Failing::by_item, crate::proofs::Failing::by_plain, crate::proofs::Failing::by_root))]
pub fn why_not_plain(
    alloc: Global,
    table: &ModelTable,
    conversions: &Conversions,
    root: &ValueType,
) -> Result<Option<Option<u32>>, AllocError>
    ensures { IfOk result (λ o. o ≡ why_not_plain_in (containers_in table.now.containers) (conversions_view conversions.now) (type_view root.now)) }
{
    let containers = table.containers.containers();
    let again = names_again(alloc, containers)?;
    let first = table.first_reaching(alloc)?;
    let failing = first_failing(alloc, table, conversions, &again, first, containers)?;
    if failing.is_some() {
        return Ok(Some(failing));
    }
    if is_plain_type(&table.containers, root) {
        return Ok(None);
    }
    Ok(Some(None))
}
