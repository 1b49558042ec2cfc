//! The answer that a walk stands for.
ghost use Rattle.std.specs.Prelude.{◌≡◌, IfOk, bytes_eq, slice_get};
ghost use Rattle.model_defs.specs.Model.{container_named};
ghost use Rattle.value_models.specs.ContainerView.{container_view, containers_view};
ghost use Rattle.value_models.specs.ContainersView.{containers_in};
ghost use Rattle.evolve_defs.specs.Spots.{node_at};
ghost use Rattle.evolve_rows.specs.PlaceView.{place_view, table_view};
ghost use Rattle.evolve_walks.specs.Walking.{walked_view};
ghost use Rattle.model_evolve.specs.Answer.{answered, node_in};
ghost use Rattle.model_evolve.specs.WayView.{way_in, way_walked};

use crate::node::{Covered, Node};
use crate::spelled::{outside, spelled};
use crate::way::way_of;
use evolve_rows::{Place, Table, Tables};
use evolve_walks::Walked;
use std::alloc::{AllocError, Global};
use value_models::{Container, Containers};

// A number of an item, as it is kept: there is no memory for more.
fn short(place: usize) -> Result<u32, AllocError>
    ensures { IfOk result (λ p. p ≡ place) }
{
    match u32::try_from(place) {
        Ok(place) => Ok(place),
        Err(_) => Err(AllocError),
    }
}

fn is_named(container: &Container, name: &str) -> bool
    ensures { result ≡ bytes_eq name.now (container_view container.now).name }
{
    name == container.name.as_str()
}

// The number of the first item of that name; where there is none, how many there are.
#[tactic(auto, using(crate::proofs::Numbers::found_nowhere))]
fn place_of(containers: &[Container], name: &str) -> usize
    ensures { slice_get (containers_view containers.now) result ≡ container_named name.now (containers_view containers.now) }
{
    for place in 0..containers.len() {
        if is_named(&containers[place], name) {
            return place;
        }
    }
    containers.len()
}

fn item_at(containers: &Containers, name: &str) -> Result<u32, AllocError>
    ensures { IfOk result (λ i. slice_get (containers_in containers.now) i ≡ container_named name.now (containers_in containers.now)) }
{
    let number = short(place_of(containers.containers(), name))?;
    Ok(number)
}

fn node_of(alloc: Global, table: &Table<'_>, place: Place<'_>) -> Result<Node, AllocError>
    ensures { IfOk result (λ n. node_in (table_view table.now) n ≡ node_at (table_view table.now) (place_view place.entry)) }
{
    match place {
        Place::Of(ty) => {
            let found = spelled(alloc, ty)?;
            Ok(Node::Ty(found))
        }
        Place::Variant(name, variant) => {
            let item = item_at(&table.models.containers, name)?;
            Ok(Node::Content { item, variant })
        }
        Place::Nowhere => {
            let found = outside(alloc)?;
            Ok(Node::Ty(found))
        }
    }
}

/// What the walk came to. It fails where memory runs out.
pub(crate) fn answer_of(
    alloc: Global,
    tables: &Tables<'_>,
    walked: &Walked<'_>,
) -> Result<Covered, AllocError>
    ensures answer { IfOk result (λ c. answered (table_view tables.now.old) (table_view tables.now.new) c (walked_view walked.now)) }
    ensures way { IfOk result (λ c. way_in c ≡ way_walked walked.now) }
{
    match walked {
        Walked::Covered => Ok(Covered::Yes),
        Walked::Broken(pair, broken, marks) => {
            let old = node_of(alloc, &tables.old, pair.old)?;
            let new = node_of(alloc, &tables.new, pair.new)?;
            let way = way_of(alloc, marks)?;
            Ok(Covered::No {
                old,
                new,
                broken: *broken,
                way,
            })
        }
    }
}
