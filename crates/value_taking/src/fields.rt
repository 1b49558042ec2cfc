//! What is asked of a field: whether it may be missing, and as which type it is read where it is present.
ghost use Rattle.std.specs.Prelude.{◌≡◌, option_map};
ghost use Rattle.model_defs.specs.Layer.{has_default as has_default_in, has_no_helper as has_no_helper_in, helped_type as helped_in, may_be_missing as may_be_missing_in, present_type as present_in};
ghost use Rattle.model_defs.specs.Model.{some_helper};
ghost use Rattle.model_defs.specs.Reads.{leads_to_option as leads_in};
ghost use Rattle.value_models.specs.ContainersView.{containers_in};
ghost use Rattle.value_models.specs.FieldView.{default_view, field_view, helper_view};
ghost use Rattle.value_models.specs.TypeView.{type_view};
ghost use Rattle.value_taking.specs.Given.{or_outside};

use crate::leading::leads_to_option;
use value_models::{Containers, Field, FieldDefault, Helper, ValueType};

fn has_default(default: FieldDefault) -> bool
    ensures { result ≡ has_default_in (default_view default) }
{
    match default {
        FieldDefault::Nothing => false,
        FieldDefault::Own | FieldDefault::Stated(_) => true,
    }
}

fn has_no_helper(helper: Helper) -> bool
    ensures { result ≡ has_no_helper_in (helper_view helper) }
{
    match helper {
        Helper::Nothing => true,
        Helper::Inner | Helper::Whole => false,
    }
}

/// Whether a struct is read without the field (serde.rs/field-attrs): it has a default, or no helper and a type that leads to an
/// option.
pub fn may_be_missing(containers: &Containers, field: &Field) -> bool
    ensures { result ≡ may_be_missing_in (leads_in (containers_in containers.now)) (field_view field.now) }
{
    has_default(field.default)
        || (has_no_helper(field.helper) && leads_to_option(containers, &field.field_type))
}

fn held_type(ty: &ValueType) -> Option<&ValueType>
    ensures { or_outside (option_map (λ t. type_view t.now) result) ≡ helped_in some_helper (type_view ty.now) }
{
    match ty {
        ValueType::Optional(inner) => Some(inner),
        _ => None,
    }
}

/// The type as which the field is read where it is present, which a helper may be none for.
pub fn present_type(field: &Field) -> Option<&ValueType>
    ensures { or_outside (option_map (λ t. type_view t.now) result) ≡ present_in (field_view field.now) }
{
    match field.helper {
        Helper::Inner => held_type(&field.field_type),
        Helper::Nothing | Helper::Whole => Some(&field.field_type),
    }
}
