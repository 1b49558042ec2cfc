//! Variants found by their names.
ghost use Rattle.std.specs.Prelude.{◌≡◌, IfErr, IfOk, option_map, slice_get};
ghost use Rattle.model_defs.specs.Layer.{is_unit as is_unit_variant};
ghost use Rattle.json_value.specs.View.{kept_view};
ghost use Rattle.value_models.specs.VariantView.{variant_view, variants_view};
ghost use Rattle.value_models.specs.ContainerView.{variants_in};
ghost use Rattle.value_parts.specs.Choice.{tagged as tagged_in, variant_from};
ghost use Rattle.value_parts.specs.Entries.{found_view};

use schema_texts::TextFault;
use serde_json::Value;
use value_models::{Style, Variant, Variants};

/// A variant, with its place among the variants.
#[derive(Clone, Copy)]
pub struct Found<'a> {
    pub place: u32,
    pub variant: &'a Variant,
}

/// The first variant that has the name among its deserialize names.
#[tactic(auto, using(crate::proofs::FirstOfName::variant_there, crate::proofs::FirstOfName::variant_nowhere))]
pub fn variant_named<'a>(variants: &'a Variants, name: &str) -> Option<Found<'a>>
    ensures { option_map found_view result ≡ variant_from 0 (variants_in variants.now) name.now }
{
    match variants.place(name) {
        Some(place) => variant_at(variants.variants(), place),
        None => None,
    }
}

#[tactic(auto, using(crate::proofs::Behind::variant_behind))]
fn variant_of(variants: &[Variant], place: u32) -> Option<&Variant>
    ensures { option_map (λ w. variant_view w.now) result ≡ slice_get (variants_view variants.now) place }
{
    variants.get(place as usize)
}

#[tactic(auto, using(crate::proofs::Behind::variant_there, crate::proofs::Behind::variant_nowhere))]
fn variant_at(variants: &[Variant], place: u32) -> Option<Found<'_>>
    ensures { option_map found_view result ≡ option_map (λ w. (place, w)) (slice_get (variants_view variants.now) place) }
{
    match variant_of(variants, place) {
        Some(variant) => Some(Found { place, variant }),
        None => None,
    }
}

/// The variant that the value of a tag names.
pub fn tagged<'a>(variants: &'a Variants, value: &Value) -> Option<Found<'a>>
    ensures { option_map found_view result ≡ tagged_in (variants_in variants.now) (kept_view value.now) }
{
    match value {
        Value::String(name) => variant_named(variants, name),
        _ => None,
    }
}

/// Whether the variant has no fields and no parentheses.
pub fn is_unit(variant: &Variant) -> bool
    ensures { result ≡ is_unit_variant (variant_view variant.now) }
{
    match variant.style {
        Style::Unit => true,
        _ => false,
    }
}

/// A place among variants, as it is kept: there is no memory for more.
pub fn short_place(place: usize) -> Result<u32, TextFault>
    ensures answer { IfOk result (λ p. p ≡ place) }
    ensures memory { IfErr result (λ e. e ≡ TextFault.Memory) }
{
    match u32::try_from(place) {
        Ok(place) => Ok(place),
        Err(_) => Err(TextFault::Memory),
    }
}
