//! The variant of an enum that is ready first.
ghost use Rattle.std.specs.Prelude.{◌≡◌, [], option_map, IfOk};
ghost use Rattle.model_defs.specs.Reads.{leads_to_option};
ghost use Rattle.value_models.specs.ContainersView.{containers_in};
ghost use Rattle.value_models.specs.ContainerView.{tag_view, variants_in};
ghost use Rattle.value_models.specs.VariantView.{variant_view, variants_view};
ghost use Rattle.example_values.specs.Fewest.{are_within as are_within_in};
ghost use Rattle.example_values.specs.Known.{rounds_of};
ghost use Rattle.example_values.specs.Chosen.{chosen_view, first_within};
ghost use Rattle.example_values.specs.Ready.{first_found_within, first_ready_within, found_or_none, ready_or_none, ready_within};

use crate::bodies::content_rounds;
use example_parts::found_variant;
use item_uses::Places;
use std::alloc::AllocError;
use value_models::{Tag, Variant, Variants};
use value_parts::is_unit;

/// A variant, with the name by which it is found, or where none is asked the one by which it is written.
#[derive(Clone, Copy)]
pub(crate) struct Chosen<'a> {
    pub(crate) name: &'a str,
    pub(crate) variant: &'a Variant,
}

fn are_within(rounds: Option<u64>, count: u64) -> bool
    ensures { result ≡ are_within_in rounds count }
{
    match rounds {
        Some(rounds) => rounds <= count,
        None => false,
    }
}

// Whether the variant is a unit, or its contents are built in so many rounds.
fn is_ready(
    places: &Places<'_>,
    rounds: &[Option<u64>],
    count: u64,
    variant: &Variant,
) -> Result<bool, AllocError>
    ensures { let ms = containers_in places.now.containers.now in
        IfOk result (λ b. b ≡ ready_within (leads_to_option ms) (rounds_of ms rounds.now) count (variant_view variant.now)) }
{
    if is_unit(variant) {
        return Ok(true);
    }
    let own = content_rounds(places, rounds, variant.style, &variant.fields)?;
    Ok(are_within(own, count))
}

// The variant, where it is ready.
fn if_ready<'a>(
    places: &Places<'_>,
    rounds: &[Option<u64>],
    count: u64,
    name: &'a str,
    variant: &'a Variant,
) -> Result<Option<Chosen<'a>>, AllocError>
    ensures { let ms = containers_in places.now.containers.now in
        IfOk result (λ o. option_map chosen_view o ≡ ready_or_none (leads_to_option ms) (rounds_of ms rounds.now) count name.now (variant_view variant.now)) }
{
    if is_ready(places, rounds, count, variant)? {
        return Ok(Some(Chosen { name, variant }));
    }
    Ok(None)
}

// The variant at the place, where a name finds it and it is ready.
#[tactic(auto, using(crate::proofs::Branches::ready_there, crate::proofs::Branches::ready_nowhere))]
fn if_found<'a>(
    places: &Places<'_>,
    rounds: &[Option<u64>],
    count: u64,
    variants: &'a Variants,
    place: usize,
    variant: &'a Variant,
) -> Result<Option<Chosen<'a>>, AllocError>
    ensures { let ms = containers_in places.now.containers.now in
        IfOk result (λ o. option_map chosen_view o ≡ found_or_none (leads_to_option ms) (rounds_of ms rounds.now) count (variants_in variants.now) place (variant_view variant.now)) }
{
    match found_variant(variants, place) {
        Some(name) => {
            let chosen = if_ready(places, rounds, count, name, variant)?;
            Ok(chosen)
        }
        None => Ok(None),
    }
}

#[tactic(auto, using(crate::proofs::FirstReady::found_begins, crate::proofs::FirstReady::found_turn, crate::proofs::FirstReady::found_stop, crate::proofs::FirstReady::found_end))]
fn first_found<'a>(
    places: &Places<'_>,
    rounds: &[Option<u64>],
    count: u64,
    variants: &'a Variants,
    list: &'a [Variant],
) -> Result<Option<Chosen<'a>>, AllocError>
    requires whole { variants_view list.now ≡ variants_in variants.now }
    ensures { let ms = containers_in places.now.containers.now in
        IfOk result (λ o. option_map chosen_view o ≡ first_found_within (leads_to_option ms) (rounds_of ms rounds.now) count [] (variants_in variants.now)) }
{
    for (place, variant) in list.iter().enumerate() {
        let chosen = if_found(places, rounds, count, variants, place, variant)?;
        if chosen.is_some() {
            return Ok(chosen);
        }
    }
    Ok(None)
}

#[tactic(auto, using(crate::proofs::FirstReady::ready_turn, crate::proofs::FirstReady::ready_stop, crate::proofs::FirstReady::ready_end))]
fn first_ready<'a>(
    places: &Places<'_>,
    rounds: &[Option<u64>],
    count: u64,
    list: &'a [Variant],
) -> Result<Option<Chosen<'a>>, AllocError>
    ensures { let ms = containers_in places.now.containers.now in
        IfOk result (λ o. option_map chosen_view o ≡ first_ready_within (leads_to_option ms) (rounds_of ms rounds.now) count (variants_view list.now)) }
{
    for variant in list {
        let chosen = if_ready(places, rounds, count, &variant.serialize_name, variant)?;
        if chosen.is_some() {
            return Ok(chosen);
        }
    }
    Ok(None)
}

/// The first variant that is ready within so many rounds, and has a name that finds it where one is asked.
pub(crate) fn first_variant<'a>(
    places: &Places<'_>,
    rounds: &[Option<u64>],
    count: u64,
    tag: &Tag,
    variants: &'a Variants,
) -> Result<Option<Chosen<'a>>, AllocError>
    ensures { let ms = containers_in places.now.containers.now in
        IfOk result (λ o. option_map chosen_view o ≡ first_within (leads_to_option ms) (rounds_of ms rounds.now) count (tag_view tag.now) (variants_in variants.now)) }
{
    match tag {
        Tag::Untagged => {
            let chosen = first_ready(places, rounds, count, variants.variants())?;
            Ok(chosen)
        }
        Tag::External | Tag::Internal(_) | Tag::Adjacent(_, _) => {
            let chosen = first_found(places, rounds, count, variants, variants.variants())?;
            Ok(chosen)
        }
    }
}
