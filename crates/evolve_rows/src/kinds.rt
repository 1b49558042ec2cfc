//! Which kinds of values a place may read.
ghost use Rattle.std.specs.Prelude.{◌≡◌, Bool, Some};
ghost use Rattle.value_models.specs.ContainerView.{container_view, tag_view};
ghost use Rattle.value_models.specs.VariantView.{variant_view};
ghost use Rattle.writing_laws.specs.Kinds.{content_may_read};
ghost use Rattle.evolve_defs.specs.Forms.{Table as Tables, content_of, contents};
ghost use Rattle.evolve_defs.specs.Spots.{container_node, node_at, variant_node};
ghost use Rattle.evolve_defs.specs.Steps.{beside};
ghost use Rattle.evolve_rows.specs.PlaceView.{place_view, table_view};
ghost use Rattle.value_kinds.specs.Kinds.{kinds_where};

use crate::look::variant_at;
use crate::place::{Place, Table};
use value_kinds::{Kind, TypeKinds};
use value_models::{Body, Container, Style, Tag, Variant};

// Beside a tag stand the fields of a struct: a unit has none, and anything else is read by nobody.
fn beside_kinds(variant: &Variant) -> TypeKinds
    ensures { (t : Tables) (closed : Bool) → result ≡ kinds_where (λ k. content_may_read k t.models (content_of (contents closed (beside (variant_view variant.now))))) }
{
    match variant.style {
        Style::Struct | Style::Unit => TypeKinds::only(Kind::Object),
        Style::Tuple | Style::Newtype => TypeKinds::none(),
    }
}

fn tagged_kinds(table: &Table<'_>, tag: &Tag, variant: &Variant) -> TypeKinds
    ensures { (closed : Bool) → result ≡ kinds_where (λ k. content_may_read k (table_view table.now).models (content_of (variant_node closed (tag_view tag.now) (Some (variant_view variant.now))))) }
{
    match tag {
        Tag::External | Tag::Adjacent(_, _) | Tag::Untagged => table.models.content_kinds(variant),
        Tag::Internal(_) => beside_kinds(variant),
    }
}

fn variant_kinds(table: &Table<'_>, container: &Container, number: u32) -> TypeKinds
    ensures { result ≡ kinds_where (λ k. content_may_read k (table_view table.now).models (content_of (container_node (Some (container_view container.now)) number))) }
{
    match &container.body {
        Body::Struct(_, _) => TypeKinds::none(),
        Body::Enum(tag, variants) => match variant_at(variants, number) {
            Some(variant) => tagged_kinds(table, tag, variant),
            None => TypeKinds::none(),
        },
    }
}

/// The kinds of values that the place may read.
pub(crate) fn place_kinds(table: &Table<'_>, place: Place<'_>) -> TypeKinds
    ensures { result ≡ kinds_where (λ k. content_may_read k (table_view table.now).models (content_of (node_at (table_view table.now) (place_view place.entry)))) }
{
    match place {
        Place::Of(ty) => table.models.type_kinds(ty),
        Place::Variant(name, number) => match table.models.containers.named(name) {
            Some(container) => variant_kinds(table, container, number),
            None => TypeKinds::none(),
        },
        Place::Nowhere => TypeKinds::none(),
    }
}
