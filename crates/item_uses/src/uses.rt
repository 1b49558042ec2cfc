//! Which items types and bodies name, by their places.
ghost use Rattle.std.specs.Prelude.{◌≡◌, ◌++◌, [], ◌∷◌, map, IfOk, OnOk};
ghost use Rattle.model_defs.specs.Types.{types};
ghost use Rattle.example_defs.specs.Outside.{items_in, items_in_all};
ghost use Rattle.reference_graph.specs.Graph.{graph_of};
ghost use Rattle.value_models.specs.TypeView.{type_view, types_view};
ghost use Rattle.value_models.specs.FieldView.{fields_view};
ghost use Rattle.value_models.specs.VariantView.{variants_view};
ghost use Rattle.value_models.specs.ContainerView.{container_view, containers_view};
ghost use Rattle.value_models.specs.ContainersView.{containers_in};
ghost use Rattle.item_uses.specs.Uses.{body_places, field_items, item_places, variant_items};

use crate::places::Places;
use std::alloc::{AllocError, Global};
use value_models::{Body, Container, Field, ValueType, Variant};

fn push_item(places: &Places<'_>, name: &str, used: &mut Vec<usize>) -> Result<(), AllocError>
    ensures { OnOk result (used.new.items ≡ used.old.items ++ item_places (containers_in places.now.containers.now) (name.now ∷ [])) }
{
    match places.place(name) {
        Some(place) => {
            used.push(place as usize)?;
            Ok(())
        }
        None => Ok(()),
    }
}

// The places of the items that the type names are put behind the others.
#[cycle(using_types)]
#[tactic(auto, using(crate::proofs::Gathered::places_then))]
pub(crate) fn push_type(
    places: &Places<'_>,
    ty: &ValueType,
    used: &mut Vec<usize>,
) -> Result<(), AllocError>
    ensures { OnOk result (used.new.items ≡ used.old.items ++ item_places (containers_in places.now.containers.now) (items_in (type_view ty.now))) }
{
    match ty {
        ValueType::Optional(inner) | ValueType::Boxed(inner) => {
            push_type(places, inner, used)?;
            Ok(())
        }
        ValueType::List(inner) | ValueType::Set(inner) | ValueType::Array(inner, _) => {
            push_type(places, inner, used)?;
            Ok(())
        }
        ValueType::Map(key, value) => {
            push_type(places, key, used)?;
            push_type(places, value, used)?;
            Ok(())
        }
        ValueType::Tuple(parts) => {
            push_types(places, parts, used)?;
            Ok(())
        }
        ValueType::Item(name) => {
            push_item(places, name, used)?;
            Ok(())
        }
        ValueType::Boolean
        | ValueType::Integer { .. }
        | ValueType::Text
        | ValueType::Native(_)
        | ValueType::Any
        | ValueType::Unit
        | ValueType::Outside => Ok(()),
    }
}

#[cycle(using_types)]
#[tactic(auto, using(crate::proofs::Gathered::type_turn, crate::proofs::Gathered::type_end))]
fn push_types(
    places: &Places<'_>,
    tys: &[ValueType],
    used: &mut Vec<usize>,
) -> Result<(), AllocError>
    ensures { OnOk result (used.new.items ≡ used.old.items ++ item_places (containers_in places.now.containers.now) (items_in_all (types (types_view tys.now)))) }
{
    for ty in tys {
        push_type(places, ty, used)?;
    }
    Ok(())
}

#[tactic(auto, using(crate::proofs::Gathered::field_turn, crate::proofs::Gathered::field_end))]
fn push_fields(
    places: &Places<'_>,
    fields: &[Field],
    used: &mut Vec<usize>,
) -> Result<(), AllocError>
    ensures { OnOk result (used.new.items ≡ used.old.items ++ item_places (containers_in places.now.containers.now) (field_items (fields_view fields.now))) }
{
    for field in fields {
        push_type(places, &field.field_type, used)?;
    }
    Ok(())
}

#[tactic(auto, using(crate::proofs::Gathered::variant_turn, crate::proofs::Gathered::variant_end))]
fn push_variants(
    places: &Places<'_>,
    variants: &[Variant],
    used: &mut Vec<usize>,
) -> Result<(), AllocError>
    ensures { OnOk result (used.new.items ≡ used.old.items ++ item_places (containers_in places.now.containers.now) (variant_items (variants_view variants.now))) }
{
    for variant in variants {
        push_fields(places, variant.fields.fields(), used)?;
    }
    Ok(())
}

fn push_body(
    places: &Places<'_>,
    container: &Container,
    used: &mut Vec<usize>,
) -> Result<(), AllocError>
    ensures { OnOk result (used.new.items ≡ used.old.items ++ body_places (containers_in places.now.containers.now) (container_view container.now)) }
{
    match &container.body {
        Body::Struct(_, fields) => {
            push_fields(places, fields.fields(), used)?;
            Ok(())
        }
        Body::Enum(_, variants) => {
            push_variants(places, variants.variants(), used)?;
            Ok(())
        }
    }
}

fn row_of(
    alloc: Global,
    places: &Places<'_>,
    container: &Container,
) -> Result<Vec<usize>, AllocError>
    ensures { IfOk result (λ v. v.items ≡ body_places (containers_in places.now.containers.now) (container_view container.now)) }
{
    let mut used = Vec::new(alloc);
    push_body(places, container, &mut used)?;
    Ok(used)
}

/// For each container the places of the items that its body names.
#[tactic(auto, using(crate::proofs::Gathered::row_turn, crate::proofs::Gathered::row_end))]
pub(crate) fn rows_of(
    alloc: Global,
    places: &Places<'_>,
    containers: &[Container],
) -> Result<Vec<Vec<usize>>, AllocError>
    ensures { IfOk result (λ v. graph_of v.items ≡ map (body_places (containers_in places.now.containers.now)) (containers_view containers.now)) }
{
    let mut rows = Vec::new(alloc);
    for container in containers {
        let row = row_of(alloc, places, container)?;
        rows.push(row)?;
    }
    Ok(rows)
}

/// The places of the items that the type names.
pub(crate) fn starts_of(
    alloc: Global,
    places: &Places<'_>,
    ty: &ValueType,
) -> Result<Vec<usize>, AllocError>
    ensures { IfOk result (λ v. v.items ≡ item_places (containers_in places.now.containers.now) (items_in (type_view ty.now))) }
{
    let mut used = Vec::new(alloc);
    push_type(places, ty, &mut used)?;
    Ok(used)
}
