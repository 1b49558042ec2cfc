//! What a content asks of a value.
ghost use Rattle.std.specs.Prelude.{◌≡◌};
ghost use Rattle.model_defs.specs.Layer.{one_type};
ghost use Rattle.model_defs.specs.Model.{newtype_style};
ghost use Rattle.value_models.specs.FieldView.{style_view};
ghost use Rattle.value_models.specs.TypeView.{type_view};
ghost use Rattle.value_models.specs.VariantView.{fields_in};
ghost use Rattle.value_kinds.specs.Claims.{claim_of, claim_view, fields_claim, or_null, own_claim as own_claim_of};

use crate::type_kinds::{Kind, TypeKinds};
use value_models::{Fields, Style, ValueType};

/// The kinds of values that a content reads itself, and the item that it hands the value on to.
#[derive(Clone, Copy)]
pub(crate) struct Claim<'a> {
    pub(crate) own: TypeKinds,
    pub(crate) item: Option<&'a str>,
}

fn own_claim(own: TypeKinds) -> Claim<'static>
    ensures { claim_view result ≡ own_claim_of own }
{
    Claim { own, item: None }
}

fn or_null<'a>(claim: Claim<'a>) -> Claim<'a>
    ensures { claim_view result ≡ or_null (claim_view claim.entry) }
{
    Claim {
        own: TypeKinds::only(Kind::Null).either(claim.own),
        item: claim.item,
    }
}

/// What a type asks, seen through options and boxes.
pub(crate) fn type_claim(ty: &ValueType) -> Claim<'_>
    ensures { claim_view result ≡ claim_of (one_type (type_view ty.now)) }
{
    match ty {
        ValueType::Boolean => own_claim(TypeKinds::only(Kind::Boolean)),
        ValueType::Integer { .. } => own_claim(TypeKinds::only(Kind::Number)),
        ValueType::Text | ValueType::Native(_) => own_claim(TypeKinds::only(Kind::String)),
        ValueType::Any => own_claim(TypeKinds::all()),
        ValueType::Unit => own_claim(TypeKinds::only(Kind::Null)),
        ValueType::Optional(inner) => or_null(type_claim(inner)),
        ValueType::Boxed(inner) => type_claim(inner),
        ValueType::List(_) | ValueType::Set(_) => own_claim(TypeKinds::only(Kind::Array)),
        ValueType::Map(_, _) => own_claim(TypeKinds::only(Kind::Object)),
        ValueType::Tuple(_) | ValueType::Array(_, _) => own_claim(TypeKinds::only(Kind::Array)),
        ValueType::Item(name) => Claim {
            own: TypeKinds::none(),
            item: Some(name.as_str()),
        },
        ValueType::Outside => own_claim(TypeKinds::none()),
    }
}

// One unnamed field is its type.
fn newtype_claim(fields: &Fields) -> Claim<'_>
    ensures { claim_view result ≡ fields_claim newtype_style (fields_in fields.now) }
{
    match fields.fields() {
        [field] => type_claim(&field.field_type),
        _ => own_claim(TypeKinds::none()),
    }
}

/// What fields ask.
pub(crate) fn fields_claim<'a>(style: Style, fields: &'a Fields) -> Claim<'a>
    ensures { claim_view result ≡ fields_claim (style_view style) (fields_in fields.now) }
{
    match style {
        Style::Struct => own_claim(TypeKinds::only(Kind::Object)),
        Style::Tuple => own_claim(TypeKinds::only(Kind::Array)),
        Style::Newtype => newtype_claim(fields),
        Style::Unit => own_claim(TypeKinds::only(Kind::Null)),
    }
}
