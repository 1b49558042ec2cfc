//! Containers with what they ask of one value.
ghost use Rattle.std.specs.Prelude.{◌≡◌, ◌↔◌, [], Bool, false, map, option_map, IfOk, slice_index};
ghost use Rattle.name_tables.specs.Names.{all_entered};
ghost use Rattle.model_defs.specs.Layer.{variant_content};
ghost use Rattle.model_defs.specs.Reach.{NoneReachesItself};
ghost use Rattle.model_defs.specs.Reads.{allowed};
ghost use Rattle.reference_graph.specs.Graph.{IsAcyclic, graph_of};
ghost use Rattle.value_models.specs.ContainersView.{containers_in};
ghost use Rattle.value_models.specs.ContainerView.{containers_view};
ghost use Rattle.value_models.specs.Names.{container_names};
ghost use Rattle.value_models.specs.TypeView.{type_view};
ghost use Rattle.value_models.specs.VariantView.{variant_view};
ghost use Rattle.writing_laws.specs.Kinds.{content_may_read, may_read, may_within};
ghost use Rattle.value_kinds.specs.Claims.{claim_view};
ghost use Rattle.value_kinds.specs.Kinds.{kinds_where};
ghost use Rattle.value_kinds.specs.Reaching.{IsFirstLooping, IsFirstReaching};
ghost use Rattle.value_kinds.specs.Rounds.{AreKinds, asked_graph, claimed_kinds};

use crate::asked::{graph_of, names_of};
use crate::claim::{Claim, fields_claim, type_claim};
use crate::passes::{kinds_after, kinds_at, owns_of};
use crate::type_kinds::TypeKinds;
use name_tables::NameTable;
use reference_graph::first_loop;
use std::alloc::{AllocError, Global};
use value_models::{Container, Containers, ValueType, Variant};

/// Containers, with what they ask of one value: which kinds each may read, and whether one reaches itself.
#[derive(Drop)]
pub struct ModelTable {
    pub containers: Containers,
    names: NameTable,
    kinds: Vec<TypeKinds>,
    loops: bool,
    ghost named: { names ≡ all_entered (container_names 0 (containers_in containers)) [] },
    ghost read: { AreKinds (containers_in containers) kinds.items },
    ghost reaching: { (loops ≡ false) ↔ NoneReachesItself (containers_in containers) },
}

// The kinds of the containers, once no more is found.
fn kinds_of(
    alloc: Global,
    containers: &[Container],
    rows: &[Vec<usize>],
) -> Result<Vec<TypeKinds>, AllocError>
    requires { graph_of rows.now ≡ asked_graph (containers_view containers.now) }
    ensures { IfOk result (λ v. AreKinds (containers_view containers.now) v.items) }
{
    let owns = owns_of(alloc, containers)?;
    let kinds = kinds_after(alloc, &owns, rows, containers.len() + 1)?;
    Ok(kinds)
}

// Whether the graph leads from a container back to itself.
fn has_loop(alloc: Global, rows: &[Vec<usize>]) -> Result<bool, AllocError>
    ensures { IfOk result (λ b. (b ≡ false) ↔ IsAcyclic (graph_of rows.now)) }
{
    let found = first_loop(alloc, rows)?;
    Ok(found.is_some())
}

fn first_node(path: &[usize]) -> usize
    ensures { result ≡ slice_index path.now 0 }
{
    path.get(0).copied().unwrap_or(0)
}

fn start_of(path: &Option<Vec<usize>>) -> Option<usize>
    ensures { result ≡ option_map (λ path. slice_index path.items 0) path.now }
{
    match path {
        Some(path) => Some(first_node(path)),
        None => None,
    }
}

// The first node that the graph leads from back to itself.
fn first_looping(alloc: Global, rows: &[Vec<usize>]) -> Result<Option<usize>, AllocError>
    ensures { IfOk result (IsFirstLooping (graph_of rows.now)) }
{
    let found = first_loop(alloc, rows)?;
    let start = start_of(&found);
    Ok(start)
}

impl ModelTable {
    /// The containers with what they ask. It fails where memory runs out.
    pub fn new(alloc: Global, containers: Containers) -> Result<ModelTable, AllocError>
        ensures { IfOk result (λ t. containers_in t.containers ≡ containers_in containers) }
    {
        let names = names_of(alloc, containers.containers())?;
        let rows = graph_of(alloc, &names, containers.containers())?;
        let kinds = kinds_of(alloc, containers.containers(), &rows)?;
        let loops = has_loop(alloc, &rows)?;
        Ok(ModelTable {
            containers,
            names,
            kinds,
            loops,
        })
    }

    /// Whether some item reaches itself at one value: through newtypes, options, boxes and the variants of untagged enums.
    pub fn reaches_itself(&self) -> bool
        ensures { (result ≡ false) ↔ NoneReachesItself (containers_in self.now.containers) }
    {
        self.loops
    }

    /// The place of the first item that reaches itself at one value. It fails where memory runs out.
    pub fn first_reaching(&self, alloc: Global) -> Result<Option<usize>, AllocError>
        ensures { IfOk result (IsFirstReaching (containers_in self.now.containers)) }
    {
        let rows = graph_of(alloc, &self.names, self.containers.containers())?;
        let found = first_looping(alloc, &rows)?;
        Ok(found)
    }

    /// Which kinds of values the item of that name may read.
    pub fn item_kinds(&self, name: &str) -> TypeKinds
        ensures { result ≡ kinds_where (λ k. may_within k (containers_in self.now.containers) (allowed (containers_in self.now.containers)) name.now) }
    {
        match self.names.place(name) {
            Some(place) => kinds_at(&self.kinds, place as usize),
            None => TypeKinds::none(),
        }
    }

    fn claimed(&self, claim: Claim<'_>) -> TypeKinds
        ensures { result ≡ claimed_kinds (containers_in self.now.containers) (claim_view claim.entry) }
    {
        match claim.item {
            Some(name) => claim.own.either(self.item_kinds(name)),
            None => claim.own,
        }
    }

    /// Which kinds of values the type may read.
    pub fn type_kinds(&self, ty: &ValueType) -> TypeKinds
        ensures { result ≡ kinds_where (λ k. may_read k (containers_in self.now.containers) (type_view ty.now)) }
    {
        self.claimed(type_claim(ty))
    }

    /// Which kinds of values the content of a variant may read.
    pub fn content_kinds(&self, variant: &Variant) -> TypeKinds
        ensures { (closed : Bool) → result ≡ kinds_where (λ k. content_may_read k (containers_in self.now.containers) (variant_content closed (variant_view variant.now))) }
    {
        self.claimed(fields_claim(variant.style, &variant.fields))
    }
}
