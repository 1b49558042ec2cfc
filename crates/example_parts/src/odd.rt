//! Items of which no example is made.
ghost use Rattle.std.specs.Prelude.{◌≡◌, ◌&&◌, map, not, option_map};
ghost use Rattle.std.specs.List.{flat_map, list_any};
ghost use Rattle.std.specs.Option.{option_copied};
ghost use Rattle.conversion_table.specs.Conversions.{rule_view};
ghost use Rattle.example_defs.specs.Outside.{has_odd_rule as has_odd_rule_in, is_odd as is_odd_in, is_odd_rule as is_odd_rule_in, names_native as names_native_in, types_in};
ghost use Rattle.value_models.specs.ContainerView.{body_view, container_view};
ghost use Rattle.value_models.specs.FieldView.{fields_view};
ghost use Rattle.value_models.specs.VariantView.{variants_view};
ghost use Rattle.example_parts.specs.SettingView.{conversions_of, models_of};

use crate::native::names_native;
use crate::ruled::has_no_patterns;
use crate::setting::Setting;
use conversion_table::Rule;
use value_models::{Body, Container, Field, Variant};
use value_parts::rule_of;

fn fields_name_native(fields: &[Field]) -> bool
    ensures { result ≡ list_any names_native_in (map (λ f. f.field_type) (fields_view fields.now)) }
{
    for field in fields {
        if names_native(&field.field_type) {
            return true;
        }
    }
    false
}

fn variants_name_native(variants: &[Variant]) -> bool
    ensures { result ≡ list_any names_native_in (flat_map (λ w. map (λ f. f.field_type) w.fields) (variants_view variants.now)) }
{
    for variant in variants {
        if fields_name_native(variant.fields.fields()) {
            return true;
        }
    }
    false
}

fn body_names_native(body: &Body) -> bool
    ensures { result ≡ list_any names_native_in (types_in (body_view body.now)) }
{
    match body {
        Body::Struct(_, fields) => fields_name_native(fields.fields()),
        Body::Enum(_, variants) => variants_name_native(variants.variants()),
    }
}

fn is_odd_rule(rule: &Rule) -> bool
    ensures { result ≡ is_odd_rule_in (rule_view rule.now) }
{
    match rule {
        Rule::Text { all, any, .. } => !has_no_patterns(all, any),
        Rule::Allow(_) => false,
        Rule::Deny(_) => true,
    }
}

fn has_odd_rule(rule: Option<&Rule>) -> bool
    ensures { result ≡ has_odd_rule_in (option_map rule_view (option_copied rule.entry)) }
{
    match rule {
        Some(rule) => is_odd_rule(rule),
        None => false,
    }
}

/// Whether the item names a native type, or has to meet a rule with a pattern or a list of values that it doesn't allow.
pub fn is_odd(setting: &Setting<'_>, container: &Container) -> bool
    ensures { result ≡ is_odd_in (models_of setting.now) (conversions_of setting.now) (container_view container.now) }
{
    body_names_native(&container.body)
        || (container.try_from
            && has_odd_rule(rule_of(&setting.conversions.constraints, &container.name)))
}
