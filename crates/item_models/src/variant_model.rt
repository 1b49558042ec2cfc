//! Variants as the reader takes them.
ghost use Rattle.std.specs.Prelude.{◌≡◌, map, IfOk};
ghost use Rattle.container_defs.specs.Reader.{variant_model};
ghost use Rattle.derive_ast.specs.Views.{variant_view as read_view};
ghost use Rattle.value_models.specs.VariantView.{variant_view, variants_view};
ghost use Rattle.value_models.specs.ContainerView.{variants_in};

use crate::field_model::{fields_model, names_read, style_of, written_name};
use derive_ast::Variant as ReadVariant;
use std::alloc::{AllocError, Global};
use value_models::{Variant, Variants};

// What the reader makes of a variant.
fn variant_model(alloc: Global, variant: &ReadVariant<'_>) -> Result<Variant, AllocError>
    ensures { IfOk result (λ v. variant_view v ≡ variant_model (read_view variant.now)) }
{
    let names = variant.attrs.name();
    let serialize_name = written_name(alloc, names)?;
    let deserialize_names = names_read(alloc, names)?;
    let fields = fields_model(alloc, &variant.fields)?;
    Ok(Variant {
        serialize_name,
        deserialize_names,
        style: style_of(variant.style),
        fields,
    })
}

fn models_of(alloc: Global, variants: &[ReadVariant<'_>]) -> Result<Vec<Variant>, AllocError>
    ensures { IfOk result (λ v. variants_view v.items ≡ map variant_model (map read_view variants.now)) }
{
    let mut models = Vec::with_capacity(alloc, variants.len())?;
    for variant in variants {
        models.push(variant_model(alloc, variant)?)?;
    }
    Ok(models)
}

/// What the reader makes of variants.
pub(crate) fn variants_model(
    alloc: Global,
    variants: &[ReadVariant<'_>],
) -> Result<Variants, AllocError>
    ensures { IfOk result (λ w. variants_in w ≡ map variant_model (map read_view variants.now)) }
{
    let models = models_of(alloc, variants)?;
    let variants = Variants::new(alloc, models)?;
    Ok(variants)
}
