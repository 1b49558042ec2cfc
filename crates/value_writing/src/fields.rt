//! What decides how fields are written.
ghost use Rattle.std.specs.Prelude.{◌≡◌, ◌&&◌};
ghost use Rattle.typed_defs.specs.Written.{counts_as_empty, is_unit_style};
ghost use Rattle.value_models.specs.TypedView.{typed_view};
ghost use Rattle.value_models.specs.FieldView.{field_view, style_view};

use value_models::{Field, Style, Typed};

/// Whether the value is no option, an empty list or an empty map.
pub(crate) fn is_empty(typed: &Typed) -> bool
    ensures { result ≡ counts_as_empty (typed_view typed.now) }
{
    match typed {
        Typed::None => true,
        Typed::List(items) => items.is_empty(),
        Typed::Map(pairs) => pairs.is_empty(),
        _ => false,
    }
}

pub(crate) fn is_unit(style: Style) -> bool
    ensures { result ≡ is_unit_style (style_view style) }
{
    match style {
        Style::Unit => true,
        _ => false,
    }
}

/// Whether the field is let out, since it has a skip condition and its value counts as empty.
pub(crate) fn is_let_out(field: &Field, value: &Typed) -> bool
    ensures { result ≡ ((field_view field.now).skip && counts_as_empty (typed_view value.now)) }
{
    field.skip && is_empty(value)
}
