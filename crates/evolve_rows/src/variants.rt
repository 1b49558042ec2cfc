//! The rows of enums: which old variant is read by which new one.
ghost use Rattle.std.specs.Prelude.{◌≡◌, ◌++◌, IfOk, OnOk, option_map, slice_get};
ghost use Rattle.std.specs.List.{list_all};
ghost use Rattle.model_defs.specs.Layer.{is_unit as is_unit_variant};
ghost use Rattle.value_models.specs.ContainerView.{variants_in};
ghost use Rattle.value_models.specs.VariantView.{variant_view, variants_view};
ghost use Rattle.evolve_defs.specs.Spots.{each_spot, of_variant};
ghost use Rattle.evolve_defs.specs.Walk.{goes};
ghost use Rattle.evolve_rows.specs.Led.{all_led, led, led_to, led_view, units_led};
ghost use Rattle.evolve_rows.specs.PlaceView.{place_view};
ghost use Rattle.evolve_rows.specs.TurnView.{pair_view, pairs_view, turn_view};

use crate::place::Place;
use crate::turn::{Broken, Pair, Turn};
use std::alloc::{AllocError, Global};
use value_models::{Style, Variant, Variants};

// What an old variant leads to: nothing more, or a pair of contents.
#[derive(Clone, Copy)]
enum Led<'a> {
    Nowhere,
    To(Pair<'a>),
}

/// Whether the variant has no fields and no parentheses.
pub(crate) fn is_unit(variant: &Variant) -> bool
    ensures { result ≡ is_unit_variant (variant_view variant.now) }
{
    match variant.style {
        Style::Unit => true,
        _ => false,
    }
}

/// A place among variants, as it is kept: there is no memory for more.
pub(crate) fn short(place: usize) -> Result<u32, AllocError>
    ensures { IfOk result (λ p. p ≡ place) }
{
    match u32::try_from(place) {
        Ok(place) => Ok(place),
        Err(_) => Err(AllocError),
    }
}

// Both are units or neither is; beside a tag a unit is a struct without fields.
fn led_by<'a>(beside: bool, old: &Variant, new: &Variant, pair: Pair<'a>) -> Option<Led<'a>>
    ensures { option_map led_view result ≡ units_led beside (is_unit_variant (variant_view old.now)) (is_unit_variant (variant_view new.now)) (pair_view pair.entry) }
{
    match (beside, is_unit(old), is_unit(new)) {
        (true, _, _) => Some(Led::To(pair)),
        (false, true, true) => Some(Led::Nowhere),
        (false, false, false) => Some(Led::To(pair)),
        _ => None,
    }
}

// The new variant of that name, with its place.
fn variant_of<'a>(variants: &'a Variants, place: u32) -> Option<&'a Variant>
    ensures { option_map (λ w. variant_view w.now) result ≡ slice_get (variants_in variants.now) place }
{
    variants.variants().get(place as usize)
}

fn led_to<'a>(
    beside: bool,
    old: &Variant,
    from: Place<'a>,
    home: &'a str,
    new: &'a Variants,
    place: u32,
) -> Option<Led<'a>>
    ensures { option_map led_view result ≡ led_to beside (is_unit_variant (variant_view old.now)) (place_view from.entry, of_variant home.now place) (slice_get (variants_in new.now) place) }
{
    match variant_of(new, place) {
        Some(found) => led_by(
            beside,
            old,
            found,
            Pair {
                old: from,
                new: Place::Variant(home, place),
            },
        ),
        None => None,
    }
}

// What an old variant leads to, if a new one reads it.
fn led_by_name<'a>(
    beside: bool,
    old_home: &'a str,
    number: u32,
    old: &Variant,
    home: &'a str,
    new: &'a Variants,
) -> Option<Led<'a>>
    ensures { option_map led_view result ≡ led beside old_home.now home.now number (variant_view old.now) (variants_in new.now) }
{
    match new.place(&old.serialize_name) {
        Some(place) => led_to(
            beside,
            old,
            Place::Variant(old_home, number),
            home,
            new,
            place,
        ),
        None => None,
    }
}

fn push_led<'a>(pairs: &mut Vec<Pair<'a>>, led: Led<'a>) -> Result<(), AllocError>
    ensures { OnOk result (pairs_view pairs.new.items ≡ pairs_view pairs.old.items ++ led_view led.entry) }
{
    match led {
        Led::Nowhere => Ok(()),
        Led::To(pair) => {
            pairs.push(pair)?;
            Ok(())
        }
    }
}

// Each old variant with the new one that reads it.
#[tactic(auto, using(crate::proofs::Leading::led_lost, crate::proofs::Leading::led_end))]
pub(crate) fn all_led<'a>(
    alloc: Global,
    beside: bool,
    old_home: &'a str,
    old: &[Variant],
    home: &'a str,
    new: &'a Variants,
) -> Result<Turn<'a>, AllocError>
    ensures { IfOk result (λ t. turn_view t ≡ all_led beside old_home.now home.now 0 (variants_view old.now) (variants_in new.now)) }
{
    let mut pairs = Vec::new(alloc);
    for place in 0..old.len() {
        let number = short(place)?;
        let Some(found) = led_by_name(beside, old_home, number, &old[place], home, new) else {
            return Ok(Turn::Stops(Broken::Variant));
        };
        push_led(&mut pairs, found)?;
    }
    Ok(Turn::Goes(pairs))
}

/// Each variant of an old untagged enum with the new place.
pub(crate) fn each_variant<'a>(
    alloc: Global,
    old_home: &'a str,
    old: &[Variant],
    new: Place<'a>,
) -> Result<Turn<'a>, AllocError>
    ensures { IfOk result (λ t. turn_view t ≡ goes (each_spot old_home.now (place_view new.entry) 0 (variants_view old.now))) }
{
    let mut pairs = Vec::new(alloc);
    for place in 0..old.len() {
        let number = short(place)?;
        pairs.push(Pair {
            old: Place::Variant(old_home, number),
            new,
        })?;
    }
    Ok(Turn::Goes(pairs))
}

/// Whether all variants are units.
pub(crate) fn are_units(variants: &[Variant]) -> bool
    ensures { result ≡ list_all is_unit_variant (variants_view variants.now) }
{
    for variant in variants {
        if !is_unit(variant) {
            return false;
        }
    }
    true
}
