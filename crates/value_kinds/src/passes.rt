//! The kinds that items read, found in rounds.
ghost use Rattle.std.specs.Prelude.{◌≡◌, ◌||◌, ◌<◌, ◌^◌, [], ◌∷◌, false, true, map, length, suc, IfOk, IsTrue};
ghost use Rattle.std.specs.List.{list_any};
ghost use Rattle.model_defs.specs.Layer.{is_unit};
ghost use Rattle.model_defs.specs.Model.{external_tag, untagged};
ghost use Rattle.reference_graph.specs.Graph.{graph_of};
ghost use Rattle.value_models.specs.ContainerView.{container_view, containers_view};
ghost use Rattle.value_models.specs.VariantView.{variant_view, variants_view};
ghost use Rattle.writing_laws.specs.Kinds.{enum_may};
ghost use Rattle.value_kinds.specs.Claims.{no_item, own_kinds};
ghost use Rattle.value_kinds.specs.Kinds.{kinds_where};
ghost use Rattle.value_kinds.specs.Rounds.{kinds_after, kinds_at, next_kinds, with_places};

use crate::claim::fields_claim;
use crate::type_kinds::{Kind, TypeKinds};
use std::alloc::{AllocError, Global};
use value_models::{Body, Container, Style, Tag, Variant};

// ---- the kinds that a container reads itself

fn is_unit(variant: &Variant) -> bool
    ensures { result ≡ is_unit (variant_view variant.now) }
{
    variant.style == Style::Unit
}

// A text names a unit variant, the one member of an object another.
fn variant_kind(variant: &Variant) -> TypeKinds
    ensures { result ≡ kinds_where (λ k. enum_may k no_item false external_tag (variant_view variant.now ∷ [])) }
{
    if is_unit(variant) {
        TypeKinds::only(Kind::String)
    } else {
        TypeKinds::only(Kind::Object)
    }
}

fn external_kinds(variants: &[Variant]) -> TypeKinds
    ensures { result ≡ kinds_where (λ k. enum_may k no_item false external_tag (variants_view variants.now)) }
{
    let mut kinds = TypeKinds::none();
    for variant in variants {
        kinds = kinds.either(variant_kind(variant));
    }
    kinds
}

fn untagged_kinds(variants: &[Variant]) -> TypeKinds
    ensures { result ≡ kinds_where (λ k. enum_may k no_item false untagged (variants_view variants.now)) }
{
    let mut kinds = TypeKinds::none();
    for variant in variants {
        kinds = kinds.either(fields_claim(variant.style, &variant.fields).own);
    }
    kinds
}

fn own_of(container: &Container) -> TypeKinds
    ensures { result ≡ own_kinds (container_view container.now) }
{
    match &container.body {
        Body::Struct(Style::Struct, _) => TypeKinds::only(Kind::Object),
        Body::Struct(Style::Newtype, fields) => fields_claim(Style::Newtype, fields).own,
        Body::Struct(Style::Tuple | Style::Unit, _) => TypeKinds::none(),
        Body::Enum(Tag::External, variants) => external_kinds(variants.variants()),
        Body::Enum(Tag::Internal(_) | Tag::Adjacent(_, _), _) => TypeKinds::only(Kind::Object),
        Body::Enum(Tag::Untagged, variants) => untagged_kinds(variants.variants()),
    }
}

/// The kinds that each container reads itself.
pub(crate) fn owns_of(alloc: Global, containers: &[Container]) -> Result<Vec<TypeKinds>, AllocError>
    ensures { IfOk result (λ v. v.items ≡ map own_kinds (containers_view containers.now)) }
{
    let mut owns = Vec::new(alloc);
    for container in containers {
        owns.push(own_of(container))?;
    }
    Ok(owns)
}

// ---- rounds

pub(crate) fn kinds_at(kinds: &[TypeKinds], place: usize) -> TypeKinds
    ensures { result ≡ kinds_at kinds.now place }
{
    match kinds.get(place) {
        Some(found) => *found,
        None => TypeKinds::none(),
    }
}

fn with_places(kinds: &[TypeKinds], row: &[usize], own: TypeKinds) -> TypeKinds
    ensures { result ≡ with_places kinds.now row.now own }
{
    let mut all = own;
    for place in row {
        all = all.either(kinds_at(kinds, *place));
    }
    all
}

fn next_kinds(
    alloc: Global,
    kinds: &[TypeKinds],
    owns: &[TypeKinds],
    rows: &[Vec<usize>],
) -> Result<Vec<TypeKinds>, AllocError>
    requires { length owns.now ≡ length rows.now }
    ensures { IfOk result (λ v. v.items ≡ next_kinds kinds.now owns.now (graph_of rows.now)) }
{
    let mut next = Vec::new(alloc);
    for place in 0..owns.len() {
        next.push(with_places(kinds, &rows[place], owns[place]))?;
    }
    Ok(next)
}

fn is_same(a: TypeKinds, b: TypeKinds) -> bool
    ensures { IsTrue result → a ≡ b }
{
    a == b
}

#[tactic(auto, using(crate::proofs::Turns::same_turn, crate::proofs::Turns::same_end))]
fn are_same(a: &[TypeKinds], b: &[TypeKinds]) -> bool
    ensures { IsTrue result → a.now ≡ b.now }
{
    if a.len() != b.len() {
        return false;
    }
    for place in 0..a.len() {
        if !is_same(a[place], b[place]) {
            return false;
        }
    }
    true
}

/// The kinds after as many rounds, of which none is made that would find no more.
#[tactic(auto, using(crate::proofs::Found::one_round, crate::proofs::Found::quiet, crate::proofs::Found::last_round))]
pub(crate) fn kinds_after(
    alloc: Global,
    owns: &[TypeKinds],
    rows: &[Vec<usize>],
    count: usize,
) -> Result<Vec<TypeKinds>, AllocError>
    requires { length owns.now ≡ length rows.now }
    ensures { IfOk result (λ v. v.items ≡ kinds_after owns.now (graph_of rows.now) count) }
{
    let mut kinds = Vec::new(alloc);
    for _round in 0..count {
        let next = next_kinds(alloc, &kinds, owns, rows)?;
        let quiet = are_same(&next, &kinds);
        kinds = next;
        if quiet {
            return Ok(kinds);
        }
    }
    Ok(kinds)
}
