//! Whether no two variants of an untagged enum may read one kind of JSON value.
ghost use Rattle.std.specs.Prelude.{◌≡◌, Bool};
ghost use Rattle.std.specs.List.{list_all};
ghost use Rattle.value_models.specs.ContainerView.{body_view, containers_view};
ghost use Rattle.value_models.specs.ContainersView.{containers_in};
ghost use Rattle.value_models.specs.VariantView.{variants_view};
ghost use Rattle.writing_laws.specs.Kinds.{body_is_apart as body_apart, untagged_are_apart as all_apart, variants_are_apart as each_apart};

use value_kinds::{ModelTable, TypeKinds};
use value_models::{Body, Container, Tag, Variant};

// The kinds of the variants before are kept, so that each variant is asked once.
fn variants_are_apart(table: &ModelTable, variants: &[Variant]) -> bool
    ensures { (closed : Bool) → result ≡ each_apart (containers_in table.now.containers) closed (variants_view variants.now) }
{
    let mut seen = TypeKinds::none();
    for variant in variants {
        let kinds = table.content_kinds(variant);
        if !seen.is_apart(kinds) {
            return false;
        }
        seen = seen.either(kinds);
    }
    true
}

fn body_is_apart(table: &ModelTable, body: &Body) -> bool
    ensures { (closed : Bool) → result ≡ body_apart (containers_in table.now.containers) closed (body_view body.now) }
{
    match body {
        Body::Struct(_, _) => true,
        Body::Enum(Tag::External | Tag::Internal(_) | Tag::Adjacent(_, _), _) => true,
        Body::Enum(Tag::Untagged, variants) => variants_are_apart(table, variants.variants()),
    }
}

fn bodies_are_apart(table: &ModelTable, containers: &[Container]) -> bool
    ensures { result ≡ list_all (λ m. body_apart (containers_in table.now.containers) m.closed m.body) (containers_view containers.now) }
{
    for container in containers {
        if !body_is_apart(table, &container.body) {
            return false;
        }
    }
    true
}

/// Whether no two variants of an untagged enum may read one kind of JSON value. It takes no memory.
pub fn untagged_are_apart(table: &ModelTable) -> bool
    ensures { result ≡ all_apart (containers_in table.now.containers) }
{
    bodies_are_apart(table, table.containers.containers())
}
