//! Which items hand a value on to which.
ghost use Rattle.std.specs.Prelude.{◌≡◌, ◌++◌, [], ◌∷◌, false, map, IfOk, OnOk};
ghost use Rattle.name_tables.specs.Names.{all_entered};
ghost use Rattle.model_defs.specs.Reach.{asked_by_variants};
ghost use Rattle.reference_graph.specs.Graph.{graph_of};
ghost use Rattle.value_models.specs.ContainerView.{container_view, containers_view};
ghost use Rattle.value_models.specs.Names.{at_one_place, container_names};
ghost use Rattle.value_models.specs.VariantView.{variants_view};
ghost use Rattle.value_kinds.specs.Claims.{claim_view};
ghost use Rattle.value_kinds.specs.Rounds.{asked_places, places_of};

use crate::claim::{Claim, fields_claim};
use name_tables::NameTable;
use std::alloc::{AllocError, Global};
use value_models::{Body, Container, Tag, Variant};

// A place in a table is a u32: there is no memory for more items.
fn enter(names: &mut NameTable, container: &Container, place: usize) -> Result<(), AllocError>
    ensures { OnOk result (names.new ≡ all_entered (at_one_place place ((container_view container.now).name ∷ [])) names.old) }
{
    match u32::try_from(place) {
        Ok(place) => {
            names.insert(&container.name, place)?;
            Ok(())
        }
        Err(_) => Err(AllocError),
    }
}

/// The names of containers, each with its place.
#[tactic(auto, using(value_models::proofs::Tables::container_turn, value_models::proofs::Tables::container_end))]
pub(crate) fn names_of(alloc: Global, containers: &[Container]) -> Result<NameTable, AllocError>
    ensures { IfOk result (λ t. t ≡ all_entered (container_names 0 (containers_view containers.now)) []) }
{
    let mut names = NameTable::new(alloc);
    for (place, container) in containers.iter().enumerate() {
        enter(&mut names, container, place)?;
    }
    Ok(names)
}

// The place of the item that is claimed is put behind the others.
fn push_claimed(
    names: &NameTable,
    claim: Claim<'_>,
    places: &mut Vec<usize>,
) -> Result<(), AllocError>
    ensures { OnOk result (places.new.items ≡ places.old.items ++ places_of names.now (claim_view claim.entry).asked) }
{
    let Some(name) = claim.item else {
        return Ok(());
    };
    match names.place(name) {
        Some(place) => {
            places.push(place as usize)?;
            Ok(())
        }
        None => Ok(()),
    }
}

fn push_variants(
    names: &NameTable,
    variants: &[Variant],
    places: &mut Vec<usize>,
) -> Result<(), AllocError>
    ensures { OnOk result (places.new.items ≡ places.old.items ++ places_of names.now (asked_by_variants false (variants_view variants.now))) }
{
    for variant in variants {
        push_claimed(names, fields_claim(variant.style, &variant.fields), places)?;
    }
    Ok(())
}

// The places of the items to which a container hands a value on.
fn push_asked(
    names: &NameTable,
    container: &Container,
    places: &mut Vec<usize>,
) -> Result<(), AllocError>
    ensures { OnOk result (places.new.items ≡ places.old.items ++ asked_places names.now (container_view container.now)) }
{
    match &container.body {
        Body::Struct(style, fields) => {
            push_claimed(names, fields_claim(*style, fields), places)?;
            Ok(())
        }
        Body::Enum(Tag::Untagged, variants) => {
            push_variants(names, variants.variants(), places)?;
            Ok(())
        }
        Body::Enum(Tag::External | Tag::Internal(_) | Tag::Adjacent(_, _), _) => Ok(()),
    }
}

fn row_of(alloc: Global, names: &NameTable, container: &Container) -> Result<Vec<usize>, AllocError>
    ensures { IfOk result (λ v. v.items ≡ asked_places names.now (container_view container.now)) }
{
    let mut places = Vec::new(alloc);
    push_asked(names, container, &mut places)?;
    Ok(places)
}

/// The graph of containers: each refers to those that it hands a value on to.
pub(crate) fn graph_of(
    alloc: Global,
    names: &NameTable,
    containers: &[Container],
) -> Result<Vec<Vec<usize>>, AllocError>
    ensures { IfOk result (λ v. graph_of v.items ≡ map (asked_places names.now) (containers_view containers.now)) }
{
    let mut rows = Vec::new(alloc);
    for container in containers {
        let row = row_of(alloc, names, container)?;
        rows.push(row)?;
    }
    Ok(rows)
}
