//! What is asked of all fields of a container.
ghost use Rattle.std.specs.Prelude.{◌≡◌, map};
ghost use Rattle.std.specs.List.{list_any, flat_map};
ghost use Rattle.syntax_trees.specs.Item.{item_view};
ghost use Rattle.container_defs.specs.Container.{all_fields};
ghost use Rattle.container_defs.specs.Forms.{names_of};
ghost use Rattle.derive_ast.specs.Views.{field_view, variant_view, data_view};
ghost use Rattle.item_forms.specs.FieldTests.{field_test};

use crate::field_test::{FieldTest, asked};
use derive_ast::{Data, Field, Variant};
use item_names::ItemNames;

/// Whether one of the fields answers yes.
pub fn any_in_fields(names: &ItemNames<'_>, test: FieldTest, fields: &[Field<'_>]) -> bool
    ensures { result ≡ list_any (field_test (names_of (map item_view names.now.items.now)) test) (map field_view fields.now) }
{
    for field in fields {
        if asked(names, test, field) {
            return true;
        }
    }
    false
}

fn any_in_variants(names: &ItemNames<'_>, test: FieldTest, variants: &[Variant<'_>]) -> bool
    ensures { result ≡ list_any (field_test (names_of (map item_view names.now.items.now)) test) (flat_map (λ v. v.fields) (map variant_view variants.now)) }
{
    for variant in variants {
        if any_in_fields(names, test, &variant.fields) {
            return true;
        }
    }
    false
}

/// Whether one of all fields answers yes.
pub fn any_field(names: &ItemNames<'_>, test: FieldTest, body: &Data<'_>) -> bool
    ensures { result ≡ list_any (field_test (names_of (map item_view names.now.items.now)) test) (all_fields (data_view body.now)) }
{
    match body {
        Data::Enum(variants) => any_in_variants(names, test, variants),
        Data::Struct(_, fields) => any_in_fields(names, test, fields),
    }
}
