//! The names by which fields and variants are found.
ghost use Rattle.std.specs.Prelude.{◌≡◌, map, option_map, slice_get, string_bytes};
ghost use Rattle.name_tables.specs.Names.{place_of};
ghost use Rattle.value_models.specs.ContainerView.{variants_in};
ghost use Rattle.value_models.specs.FieldView.{field_view, fields_view};
ghost use Rattle.value_models.specs.Names.{field_names, variant_names};
ghost use Rattle.value_models.specs.VariantView.{fields_in, variant_view, variants_view};
ghost use Rattle.example_defs.specs.Built.{first_that};
ghost use Rattle.example_parts.specs.Names.{name_found, names_of_fields, names_of_variants};
ghost use Rattle.example_parts.specs.Places.{is_at};

use value_models::{Field, Fields, Variant, Variants};

fn is_at(place: usize, found: Option<u32>) -> bool
    ensures { result ≡ is_at place found }
{
    match found {
        Some(found) => found as usize == place,
        None => false,
    }
}

#[tactic(auto, using(value_parts::proofs::Behind::variant_behind))]
fn variant_behind(variants: &[Variant], place: usize) -> Option<&Variant>
    ensures { option_map (λ w. variant_view w.now) result ≡ slice_get (variants_view variants.now) place }
{
    variants.get(place)
}

#[tactic(auto, using(crate::proofs::Behind::field_behind))]
fn field_behind(fields: &[Field], place: usize) -> Option<&Field>
    ensures { option_map (λ f. field_view f.now) result ≡ slice_get (fields_view fields.now) place }
{
    fields.get(place)
}

// The first of the names that has the place among the fields.
fn field_at<'a>(fields: &Fields, place: usize, names: &'a [String]) -> Option<&'a str>
    ensures { option_map (λ n. n.now) result ≡ first_that (λ n. is_at place (place_of n (field_names 0 (fields_in fields.now)))) (map string_bytes names.now) }
{
    for name in names {
        if is_at(place, fields.place(name)) {
            return Some(name);
        }
    }
    None
}

/// The name by which the field at a place is found: the first of its names that no earlier field has. A rest is found by none,
/// and neither is what stands past the last field.
#[tactic(auto, using(crate::proofs::FoundNames::field_there, crate::proofs::FoundNames::field_nowhere))]
pub fn found_field(fields: &Fields, place: usize) -> Option<&str>
    ensures { option_map (λ n. n.now) result ≡ name_found (names_of_fields (fields_in fields.now)) place }
{
    match field_behind(fields.fields(), place) {
        Some(field) => field_at(fields, place, &field.deserialize_names),
        None => None,
    }
}

// The first of the names that has the place among the variants.
fn variant_at<'a>(variants: &Variants, place: usize, names: &'a [String]) -> Option<&'a str>
    ensures { option_map (λ n. n.now) result ≡ first_that (λ n. is_at place (place_of n (variant_names 0 (variants_in variants.now)))) (map string_bytes names.now) }
{
    for name in names {
        if is_at(place, variants.place(name)) {
            return Some(name);
        }
    }
    None
}

/// The name by which the variant at a place is found: the first of its names that no earlier variant has.
#[tactic(auto, using(crate::proofs::FoundNames::variant_there, crate::proofs::FoundNames::variant_nowhere))]
pub fn found_variant(variants: &Variants, place: usize) -> Option<&str>
    ensures { option_map (λ n. n.now) result ≡ name_found (names_of_variants (variants_in variants.now)) place }
{
    match variant_behind(variants.variants(), place) {
        Some(variant) => variant_at(variants, place, &variant.deserialize_names),
        None => None,
    }
}
