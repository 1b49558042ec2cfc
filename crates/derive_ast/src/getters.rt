//! Whether some field has a getter.
ghost use Rattle.std.specs.Prelude.{◌≡◌, is_some, map};
ghost use Rattle.std.specs.List.{list_any, flat_map};
ghost use Rattle.container_defs.specs.Container.{has_getter as any_getter};
ghost use Rattle.derive_ast.specs.Views.{field_view, variant_view, data_view};

use crate::container::{Data, Field, Variant};

fn has_getter_among(fields: &[Field]) -> bool
    ensures { result ≡ list_any (λ f. is_some f.attrs.getter) (map field_view fields.now) }
{
    for field in fields {
        if field.attrs.getter().is_some() {
            return true;
        }
    }
    false
}

fn has_getter_in(variants: &[Variant]) -> bool
    ensures { result ≡ list_any (λ f. is_some f.attrs.getter) (flat_map (λ v. v.fields) (map variant_view variants.now)) }
{
    for variant in variants {
        if has_getter_among(&variant.fields) {
            return true;
        }
    }
    false
}

impl<'a> Data<'a> {
    /// Whether some field has a getter. It takes no memory.
    pub fn has_getter(&self) -> bool
        ensures { result ≡ any_getter (data_view self.now) }
    {
        match self {
            Data::Enum(variants) => has_getter_in(variants),
            Data::Struct(_, fields) => has_getter_among(fields),
        }
    }
}
