//! The places of items.
ghost use Rattle.std.specs.Prelude.{◌≡◌, [], ◌∷◌, IfOk, OnOk};
ghost use Rattle.name_tables.specs.Names.{all_entered, place_of};
ghost use Rattle.value_models.specs.ContainerView.{containers_view};
ghost use Rattle.value_models.specs.ContainersView.{containers_in};
ghost use Rattle.value_models.specs.Names.{at_one_place, container_names};

use name_tables::NameTable;
use std::alloc::{AllocError, Global};
use value_models::{Container, Containers};

/// Containers, with a table by which the place of a name is found.
#[derive(Drop)]
pub struct Places<'a> {
    pub containers: &'a Containers,
    names: NameTable,
    ghost named: { names ≡ all_entered (container_names 0 (containers_in containers.now)) [] },
}

impl<'a> Places<'a> {
    /// The containers with the table of their names. It fails where memory runs out.
    pub fn new(alloc: Global, containers: &'a Containers) -> Result<Places<'a>, AllocError>
        ensures { IfOk result (λ p. containers_in p.containers.now ≡ containers_in containers.now) }
    {
        let names = names_of(alloc, containers.containers())?;
        Ok(Places { containers, names })
    }

    /// The place of the first container of that name.
    #[tactic(auto, using(value_models::proofs::Tables::scanned))]
    pub fn place(&self, name: &str) -> Option<u32>
        ensures { result ≡ place_of name.now (container_names 0 (containers_in self.now.containers.now)) }
    {
        self.names.place(name)
    }
}

// A place in a table is a u32: there is no memory for more items.
fn enter(names: &mut NameTable, name: &str, place: usize) -> Result<(), AllocError>
    ensures { OnOk result (names.new ≡ all_entered (at_one_place place (name.now ∷ [])) names.old) }
{
    match u32::try_from(place) {
        Ok(place) => {
            names.insert(name, place)?;
            Ok(())
        }
        Err(_) => Err(AllocError),
    }
}

#[tactic(auto, using(value_models::proofs::Tables::container_turn, value_models::proofs::Tables::container_end))]
fn names_of(alloc: Global, containers: &[Container]) -> Result<NameTable, AllocError>
    ensures { IfOk result (λ t. t ≡ all_entered (container_names 0 (containers_view containers.now)) []) }
{
    let mut names = NameTable::new(alloc);
    for (place, container) in containers.iter().enumerate() {
        enter(&mut names, &container.name, place)?;
    }
    Ok(names)
}
