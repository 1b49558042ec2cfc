//! Containers in order, with the table of their names.
ghost use Rattle.std.specs.Prelude.{◌≡◌, ◌<◌, ◌^◌, [], IfOk, length, option_map};
ghost use Rattle.name_tables.specs.Names.{all_entered, place_of};
ghost use Rattle.model_defs.specs.Model.{container_named};
ghost use Rattle.value_models.specs.ContainerView.{container_view, containers_view};
ghost use Rattle.value_models.specs.Names.{container_names};

use crate::container::Container;
use crate::entering::enter;
use name_tables::NameTable;
use std::alloc::{AllocError, Global};

/// Containers in order, with the table of their names.
#[derive(Drop)]
pub struct Containers {
    containers: Vec<Container>,
    names: NameTable,
    ghost named: { names ≡ all_entered (container_names 0 (containers_view containers.items)) [] },
}

impl Containers {
    /// The containers with their table. It fails where memory runs out.
    pub fn new(alloc: Global, containers: Vec<Container>) -> Result<Containers, AllocError>
        ensures { IfOk result (λ m. containers_view m.containers.items ≡ containers_view containers.items) }
    {
        let names = names_of(alloc, &containers)?;
        Ok(Containers { containers, names })
    }

    /// The containers, in order.
    pub fn containers(&self) -> &[Container]
        ensures { containers_view result.now ≡ containers_view self.now.containers.items }
    {
        &self.containers
    }

    /// How many containers there are.
    pub fn count(&self) -> usize
        ensures count { result ≡ length (containers_view self.now.containers.items) }
        ensures small { result < 2 ^ 63 }
    {
        self.containers.len()
    }

    // The place of the first container of that name.
    #[tactic(auto, using(crate::proofs::Tables::scanned))]
    fn place(&self, name: &str) -> Option<u32>
        ensures { result ≡ place_of name.now (container_names 0 (containers_view self.now.containers.items)) }
    {
        self.names.place(name)
    }

    /// The first container of that name.
    #[tactic(auto, using(crate::proofs::Tables::container_found, crate::proofs::Tables::container_missing))]
    pub fn named(&self, name: &str) -> Option<&Container>
        ensures { option_map (λ m. container_view m.now) result ≡ container_named name.now (containers_view self.now.containers.items) }
    {
        match self.place(name) {
            Some(place) => self.containers.get(place as usize),
            None => None,
        }
    }
}

#[tactic(auto, using(crate::proofs::Tables::container_turn, crate::proofs::Tables::container_end))]
fn names_of(alloc: Global, containers: &[Container]) -> Result<NameTable, AllocError>
    ensures { IfOk result (λ t. t ≡ all_entered (container_names 0 (containers_view containers.now)) []) }
{
    let mut names = NameTable::new(alloc);
    for (place, container) in containers.iter().enumerate() {
        enter(&mut names, &container.name, place)?;
    }
    Ok(names)
}
