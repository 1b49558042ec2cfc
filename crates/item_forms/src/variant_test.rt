//! What is asked of variants.
ghost use Rattle.std.specs.Prelude.{◌≡◌, ◌||◌, is_some, map};
ghost use Rattle.std.specs.List.{list_any};
ghost use Rattle.container_defs.specs.Checks.{variants_in};
ghost use Rattle.derive_ast.specs.Views.{variant_view, data_view};
ghost use Rattle.item_forms.specs.VariantTests.{variant_test};

use derive_ast::{Data, Variant};

/// What is asked of each variant.
#[derive(Clone, Copy)]
pub enum VariantTest {
    /// It has bounds of its own.
    Bound,
    Other,
    Untagged,
    /// It isn't written, or isn't read.
    Skip,
    SerializeWith,
    DeserializeWith,
}

#[tactic(auto, using(item_models::proofs::Lists::some_seen))]
fn is_bound(variant: &Variant<'_>) -> bool
    ensures { result ≡ (is_some (variant_view variant.now).attrs.ser_bound || is_some (variant_view variant.now).attrs.de_bound) }
{
    variant.attrs.ser_bound().is_some() || variant.attrs.de_bound().is_some()
}

#[tactic(auto, using(item_models::proofs::Lists::some_seen))]
fn is_written_with(variant: &Variant<'_>) -> bool
    ensures { result ≡ is_some (variant_view variant.now).attrs.serialize_with }
{
    variant.attrs.serialize_with().is_some()
}

#[tactic(auto, using(item_models::proofs::Lists::some_seen))]
fn is_read_with(variant: &Variant<'_>) -> bool
    ensures { result ≡ is_some (variant_view variant.now).attrs.deserialize_with }
{
    variant.attrs.deserialize_with().is_some()
}

// What the variant answers.
fn asked(test: VariantTest, variant: &Variant<'_>) -> bool
    ensures { result ≡ variant_test test (variant_view variant.now) }
{
    match test {
        VariantTest::Bound => is_bound(variant),
        VariantTest::Other => variant.attrs.other(),
        VariantTest::Untagged => variant.attrs.untagged(),
        VariantTest::Skip => {
            variant.attrs.skip_serializing() || variant.attrs.skip_deserializing()
        }
        VariantTest::SerializeWith => is_written_with(variant),
        VariantTest::DeserializeWith => is_read_with(variant),
    }
}

fn any_in(test: VariantTest, variants: &[Variant<'_>]) -> bool
    ensures { result ≡ list_any (variant_test test) (map variant_view variants.now) }
{
    for variant in variants {
        if asked(test, variant) {
            return true;
        }
    }
    false
}

/// Whether one of the variants answers yes.
pub fn any_variant(test: VariantTest, body: &Data<'_>) -> bool
    ensures { result ≡ list_any (variant_test test) (variants_in (data_view body.now)) }
{
    match body {
        Data::Enum(variants) => any_in(test, variants),
        Data::Struct(_, _) => false,
    }
}
