//! Defaults at places of the table.
ghost use Rattle.std.specs.Prelude.{◌≡◌, ℕ, Option, map, nat_lt, IfOk};
ghost use Rattle.std.specs.List.{list_any, flat_map};
ghost use Rattle.syntax_trees.specs.View.{expr_path_view};
ghost use Rattle.container_defs.specs.Container.{all_fields};
ghost use Rattle.container_defs.specs.Forms.{holds};
ghost use Rattle.derive_ast.specs.Views.{field_view, variant_view, data_view};
ghost use Rattle.item_models.specs.PlaceView.{IsPlace};
ghost use Rattle.item_causes.specs.Newtypes.{is_at, is_misplaced};

use attr_parts::Default;
use derive_ast::{Data, Field, Variant};
use item_models::{Place, place_of};
use std::alloc::{AllocError, Global};
use syntax_trees::ExprPath;

#[tactic(auto, using(crate::proofs::Placed::nowhere, crate::proofs::Placed::there, crate::proofs::Placed::far))]
fn is_below(place: Place, count: usize) -> bool
    ensures { (o : Option ℕ) → IsPlace o place → result ≡ holds (λ n. nat_lt n count) o }
{
    match place {
        Place::Nowhere => false,
        Place::At(number) => number < count as u64,
        Place::Far => false,
    }
}

fn is_at(alloc: Global, count: usize, path: &ExprPath) -> Result<bool, AllocError>
    ensures { IfOk result (λ r. r ≡ is_at count (expr_path_view path.now)) }
{
    let place = place_of(alloc, path)?;
    Ok(is_below(place, count))
}

fn is_misplaced(alloc: Global, count: usize, field: &Field<'_>) -> Result<bool, AllocError>
    ensures { IfOk result (λ r. r ≡ is_misplaced count (field_view field.now)) }
{
    match field.attrs.default() {
        Default::None => Ok(false),
        Default::Default => Ok(false),
        Default::Path(path) => {
            let there = is_at(alloc, count, path)?;
            Ok(!there)
        }
    }
}

fn any_misplaced(alloc: Global, count: usize, fields: &[Field<'_>]) -> Result<bool, AllocError>
    ensures { IfOk result (λ r. r ≡ list_any (is_misplaced count) (map field_view fields.now)) }
{
    for field in fields {
        if is_misplaced(alloc, count, field)? {
            return Ok(true);
        }
    }
    Ok(false)
}

fn any_in(alloc: Global, count: usize, variants: &[Variant<'_>]) -> Result<bool, AllocError>
    ensures { IfOk result (λ r. r ≡ list_any (is_misplaced count) (flat_map (λ v. v.fields) (map variant_view variants.now))) }
{
    for variant in variants {
        if any_misplaced(alloc, count, &variant.fields)? {
            return Ok(true);
        }
    }
    Ok(false)
}

/// Whether a field has a default at a path that is none of so many places of the table.
pub fn has_unknown_default(alloc: Global, count: usize, body: &Data<'_>) -> Result<bool, AllocError>
    ensures { IfOk result (λ r. r ≡ list_any (is_misplaced count) (all_fields (data_view body.now))) }
{
    match body {
        Data::Enum(variants) => any_in(alloc, count, variants),
        Data::Struct(_, fields) => any_misplaced(alloc, count, fields),
    }
}
