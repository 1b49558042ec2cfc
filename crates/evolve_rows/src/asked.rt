//! What a type asks for, behind its boxes.
ghost use Rattle.std.specs.Prelude.{◌≡◌, [], option_map};
ghost use Rattle.model_defs.specs.Model.{newtype_style, struct_model};
ghost use Rattle.value_models.specs.TypeView.{type_view};
ghost use Rattle.value_models.specs.VariantView.{fields_in};
ghost use Rattle.value_models.specs.ContainerView.{body_view};
ghost use Rattle.evolve_rows.specs.Asking.{form_asked, newtype_of};
ghost use Rattle.evolve_rows.specs.FormView.{form_asked_view, asked_home};

use crate::form::{Form, Places, Range};
use value_models::{Body, Fields, Style, ValueType};

/// An item, or the form of a type that is none.
#[derive(Clone, Copy)]
pub(crate) enum Asked<'a> {
    Item(&'a str),
    Known(Form<'a>),
}

/// What the type asks for.
pub(crate) fn asked_by(ty: &ValueType) -> Asked<'_>
    ensures form { form_asked_view result ≡ form_asked (type_view ty.now) }
    ensures home { asked_home result ≡ [] }
{
    match ty {
        ValueType::Boolean => Asked::Known(Form::Boolean),
        ValueType::Integer { least, greatest } => Asked::Known(Form::Integer(Range {
            least: *least,
            greatest: *greatest,
        })),
        ValueType::Text => Asked::Known(Form::Text),
        ValueType::Native(format) => Asked::Known(Form::Native(*format)),
        ValueType::Any => Asked::Known(Form::Any),
        ValueType::Unit => Asked::Known(Form::Unit),
        ValueType::Optional(inner) => Asked::Known(Form::Optional(inner)),
        ValueType::Boxed(inner) => asked_by(inner),
        ValueType::List(inner) => Asked::Known(Form::List(inner)),
        ValueType::Set(inner) => Asked::Known(Form::Set(inner)),
        ValueType::Map(key, value) => Asked::Known(Form::Map(key, value)),
        ValueType::Tuple(parts) => Asked::Known(Form::Tuple(Places::Types(parts))),
        ValueType::Array(inner, length) => Asked::Known(Form::Array(inner, *length)),
        ValueType::Item(name) => Asked::Item(name.as_str()),
        ValueType::Outside => Asked::Known(Form::Nothing),
    }
}

/// The type of the one unnamed field.
pub(crate) fn type_alone(fields: &Fields) -> Option<&ValueType>
    ensures { option_map (λ t. type_view t.now) result ≡ newtype_of (struct_model newtype_style (fields_in fields.now)) }
{
    match fields.fields() {
        [field] => Some(&field.field_type),
        _ => None,
    }
}

/// The type of a newtype.
pub(crate) fn newtype_of(body: &Body) -> Option<&ValueType>
    ensures { option_map (λ t. type_view t.now) result ≡ newtype_of (body_view body.now) }
{
    match body {
        Body::Struct(Style::Newtype, fields) => match fields.fields() {
            [field] => Some(&field.field_type),
            _ => None,
        },
        _ => None,
    }
}
