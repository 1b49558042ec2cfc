//! Schemas of which no two admit one value.
ghost use Rattle.std.specs.Prelude.{◌≡◌, ◌||◌, Some, not, map, option_map, string_bytes};
ghost use Rattle.std.specs.List.{list_all, list_any};
ghost use Rattle.schema_defs.specs.Walks.{IsGuarded};
ghost use Rattle.schema_types.specs.DocumentView.{document_view};
ghost use Rattle.schema_types.specs.View.{schema_view, schemas_view};
ghost use Rattle.enum_defs.specs.Words.{is_name, required_of};
ghost use Rattle.enum_defs.specs.Shapes.{constant_at, is_required as is_required_of, object_shape as object_shape_of, property_names};
ghost use Rattle.enum_defs.specs.Kinds.{kinds as kinds_in};
ghost use Rattle.enum_defs.specs.Exclusive.{exclusive as exclusive_in, are_apart as are_apart_in, is_disjoint as is_disjoint_in, shapes_differ as shapes_differ_in, differ_by_text as differ_by_text_in, requires_other as requires_other_in, texts_differ as texts_differ_in, led as led_in};
ghost use Rattle.enum_shapes.specs.View.{shape_view};

use crate::alone::led;
use crate::asked::Asked;
use crate::kind::kinds_of;
use crate::set::is_disjoint;
use enum_defs::KindSet;
use enum_shapes::{ObjectShape, constant_of, is_named, is_required, object_shape};
use schema_types::{Document, Schema};

/// Whether each two of the schemas have no kind in common; or both lead by references alone to object shapes of which
/// both require a property with different constant texts, or one requires a property that the other, closed, doesn't
/// name. It looks at each two of them once, and asks a definition once as long as there is memory to keep what it leaves
/// open.
pub fn exclusive(document: &Document, schemas: &[Schema]) -> bool
    requires { IsGuarded (document_view document.now) }
    ensures { result ≡ exclusive_in (document_view document.now) (schemas_view schemas.now) }
{
    let mut asked = Asked::new(document);
    let mut left = schemas;
    while let Some((schema, rest)) = left.split_first() {
        if !is_apart_from_all(document, &mut asked, schema, rest) {
            return false;
        }
        left = rest;
    }
    true
}

fn is_apart_from_all(
    document: &Document,
    asked: &mut Asked<'_>,
    schema: &Schema,
    others: &[Schema],
) -> bool
    requires guarded { IsGuarded (document_view document.now) }
    requires asked { asked.now.document.now ≡ document.now }
    ensures answer { result ≡ list_all (are_apart_in (document_view document.now) (schema_view schema.now)) (schemas_view others.now) }
    ensures asked { asked.new.document.now ≡ document.now }
{
    let kinds = kinds_of(document, asked, schema);
    let shape = object_shape(led(document, schema));
    let mut left = others;
    while let Some((other, rest)) = left.split_first() {
        if !are_apart(document, asked, kinds, &shape, other) {
            return false;
        }
        left = rest;
    }
    true
}

fn are_apart(
    document: &Document,
    asked: &mut Asked<'_>,
    kinds: KindSet,
    shape: &Option<ObjectShape<'_>>,
    other: &Schema,
) -> bool
    requires guarded { IsGuarded (document_view document.now) }
    requires asked { asked.now.document.now ≡ document.now }
    ensures answer { result ≡ (is_disjoint_in kinds (kinds_in (document_view document.now) (schema_view other.now)) || shapes_differ_in (option_map shape_view shape.now) (object_shape_of (led_in (document_view document.now) (schema_view other.now)))) }
    ensures asked { asked.new.document.now ≡ document.now }
{
    if is_disjoint(kinds, kinds_of(document, asked, other)) {
        return true;
    }
    match shape {
        Some(a) => match object_shape(led(document, other)) {
            Some(b) => do_differ(a, &b),
            None => false,
        },
        None => false,
    }
}

fn do_differ(a: &ObjectShape<'_>, b: &ObjectShape<'_>) -> bool
    ensures { result ≡ shapes_differ_in (Some (shape_view a.now)) (Some (shape_view b.now)) }
{
    differ_by_text(a, b) || requires_other(a, b) || requires_other(b, a)
}

fn texts_differ(a: Option<&str>, b: Option<&str>) -> bool
    ensures { result ≡ texts_differ_in (option_map (λ t. t.now) a.entry) (option_map (λ t. t.now) b.entry) }
{
    match a {
        Some(a) => match b {
            Some(b) => a != b,
            None => false,
        },
        None => false,
    }
}

// Whether both require a property with different constant texts.
fn differ_by_text(a: &ObjectShape<'_>, b: &ObjectShape<'_>) -> bool
    ensures { result ≡ differ_by_text_in (shape_view a.now) (shape_view b.now) }
{
    let Some(members) = a.object else {
        return false;
    };
    for name in members.required.iter() {
        if is_required(b, name) && texts_differ(constant_of(a, name), constant_of(b, name)) {
            return true;
        }
    }
    false
}

// Whether the first requires a property that the second, closed, doesn't name.
fn requires_other(a: &ObjectShape<'_>, b: &ObjectShape<'_>) -> bool
    ensures { result ≡ requires_other_in (shape_view a.now) (shape_view b.now) }
{
    if !b.closed {
        return false;
    }
    let Some(members) = a.object else {
        return false;
    };
    for name in members.required.iter() {
        if !is_named(b, name) {
            return true;
        }
    }
    false
}
