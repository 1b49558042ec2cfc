//! What a type is to the forms of fields.
ghost use Rattle.std.specs.Prelude.{◌≡◌, option_map};
ghost use Rattle.syntax_trees.specs.View.{ty as ty_view};
ghost use Rattle.type_spellings.specs.Types.{type_of};
ghost use Rattle.value_types.specs.RowView.{plain_view, held};
ghost use Rattle.value_types.specs.ShapeView.{type_in};
ghost use Rattle.container_defs.specs.Forms.{is_option, is_text, is_text_map};
ghost use Rattle.item_forms.specs.TypeForm.{form, is_optional, is_textual};

use syntax_trees::Ty;
use value_types::{Holder, Plain, Shape, shape_of};

/// What a type is to the forms of fields.
#[derive(Clone, Copy)]
pub(crate) enum Form {
    Optional,
    List,
    Set,
    Map,
    Text,
    Other,
}

fn plain_form(plain: Plain) -> Form
    ensures { result ≡ form (plain_view plain) }
{
    match plain {
        Plain::Boolean => Form::Other,
        Plain::Whole { .. } => Form::Other,
        Plain::Signed { .. } => Form::Other,
        Plain::Text => Form::Text,
        Plain::Native(_) => Form::Other,
        Plain::Any => Form::Other,
    }
}

fn held_form(holder: Holder, inner: &Ty) -> Form
    ensures { result ≡ form (held holder (type_in inner.now)) }
{
    let _inner = inner;
    match holder {
        Holder::Optional => Form::Optional,
        Holder::Boxed => Form::Other,
        Holder::List => Form::List,
        Holder::Set => Form::Set,
    }
}

/// What the type is.
#[tactic(auto, using(crate::proofs::TypeForms::tuple_form, crate::proofs::TypeForms::array_form))]
pub(crate) fn form_of(ty: &Ty) -> Form
    ensures { result ≡ form (type_of (ty_view ty.now)) }
{
    match shape_of(ty) {
        Shape::Plain(plain) => plain_form(plain),
        Shape::Item(_) => Form::Other,
        Shape::Held(holder, inner) => held_form(holder, inner),
        Shape::Map(_, _) => Form::Map,
        Shape::Tuple(_) => Form::Other,
        Shape::Array(_, _) => Form::Other,
        Shape::Outside => Form::Other,
    }
}

/// Whether the type is an option.
#[tactic(auto, using(crate::proofs::TypeForms::optional_formed))]
pub(crate) fn is_option(ty: &Ty) -> bool
    ensures { result ≡ is_option (type_of (ty_view ty.now)) }
{
    match form_of(ty) {
        Form::Optional => true,
        Form::List => false,
        Form::Set => false,
        Form::Map => false,
        Form::Text => false,
        Form::Other => false,
    }
}

/// Whether the type is a text.
#[tactic(auto, using(crate::proofs::TypeForms::textual_formed))]
pub fn is_text(ty: &Ty) -> bool
    ensures { result ≡ is_text (type_of (ty_view ty.now)) }
{
    match form_of(ty) {
        Form::Optional => false,
        Form::List => false,
        Form::Set => false,
        Form::Map => false,
        Form::Text => true,
        Form::Other => false,
    }
}

/// Whether the type is a map whose keys are texts.
#[tactic(auto, using(crate::proofs::TypeForms::map_of_texts, crate::proofs::TypeForms::plain_is_no_map, crate::proofs::TypeForms::held_is_no_map, crate::proofs::TypeForms::tuple_is_no_map, crate::proofs::TypeForms::array_is_no_map))]
pub(crate) fn is_text_map(ty: &Ty) -> bool
    ensures { result ≡ is_text_map (type_of (ty_view ty.now)) }
{
    match shape_of(ty) {
        Shape::Plain(_) => false,
        Shape::Item(_) => false,
        Shape::Held(_, _) => false,
        Shape::Map(key, _) => is_text(key),
        Shape::Tuple(_) => false,
        Shape::Array(_, _) => false,
        Shape::Outside => false,
    }
}
