//! What types ask of typed values that are written.
ghost use Rattle.std.specs.Prelude.{◌≡◌};
ghost use Rattle.model_defs.specs.Model.{container_named};
ghost use Rattle.value_models.specs.TypeView.{type_view};
ghost use Rattle.value_models.specs.FieldView.{fields_view, style_view};
ghost use Rattle.value_models.specs.ContainerView.{body_view};
ghost use Rattle.value_models.specs.ContainersView.{containers_in};
ghost use Rattle.value_writing.specs.Shape.{body_shape as body_shape_in, item_shape as item_shape_in, newtype_shape as newtype_shape_in, shape, struct_shape as struct_shape_in};
ghost use Rattle.value_writing.specs.Seen.{shape_view};

use value_models::{Body, Containers, Field, Style, Tag, ValueType, Variant};

/// What a type asks of a typed value, behind its boxes, and behind the name of an item.
#[derive(Clone, Copy)]
pub(crate) enum Shape<'a> {
    Plain,
    Optional(&'a ValueType),
    Each(&'a ValueType),
    Named(&'a ValueType, &'a ValueType),
    Places(&'a [ValueType]),
    Struct(&'a [Field]),
    Newtype(&'a ValueType),
    Enum(&'a Tag, &'a [Variant]),
    Nothing,
}

#[tactic(auto, using(crate::proofs::Lists::tuple_shape))]
pub(crate) fn shape_of<'a>(containers: &'a Containers, ty: &'a ValueType) -> Shape<'a>
    ensures { shape_view result ≡ shape (containers_in containers.now) (type_view ty.now) }
{
    match ty {
        ValueType::Optional(inner) => Shape::Optional(inner),
        ValueType::Boxed(inner) => shape_of(containers, inner),
        ValueType::List(inner) => Shape::Each(inner),
        ValueType::Set(inner) => Shape::Each(inner),
        ValueType::Array(inner, _) => Shape::Each(inner),
        ValueType::Map(key, value) => Shape::Named(key, value),
        ValueType::Tuple(types) => Shape::Places(types.as_slice()),
        ValueType::Item(name) => item_shape(containers, name),
        _ => Shape::Plain,
    }
}

fn item_shape<'a>(containers: &'a Containers, name: &str) -> Shape<'a>
    ensures { shape_view result ≡ item_shape_in (container_named name.now (containers_in containers.now)) }
{
    match containers.named(name) {
        Some(found) => body_shape(&found.body),
        None => Shape::Nothing,
    }
}

fn body_shape(body: &Body) -> Shape<'_>
    ensures { shape_view result ≡ body_shape_in (body_view body.now) }
{
    match body {
        Body::Struct(style, fields) => struct_shape(*style, fields.fields()),
        Body::Enum(tag, variants) => Shape::Enum(tag, variants.variants()),
    }
}

fn struct_shape(style: Style, fields: &[Field]) -> Shape<'_>
    ensures { shape_view result ≡ struct_shape_in (style_view style) (fields_view fields.now) }
{
    match style {
        Style::Struct => Shape::Struct(fields),
        Style::Newtype => newtype_shape(fields),
        _ => Shape::Nothing,
    }
}

fn newtype_shape(fields: &[Field]) -> Shape<'_>
    ensures { shape_view result ≡ newtype_shape_in (fields_view fields.now) }
{
    match fields {
        [field] => Shape::Newtype(&field.field_type),
        _ => Shape::Nothing,
    }
}
