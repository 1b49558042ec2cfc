//! Plain items.
ghost use Rattle.std.specs.Prelude.{◌≡◌, [], ◌∷◌, Some, option_map, IfOk};
ghost use Rattle.std.specs.Option.{option_copied};
ghost use Rattle.conversion_table.specs.Conversions.{conversions_view, rule_view};
ghost use Rattle.value_models.specs.FieldView.{field_view, fields_view, style_view};
ghost use Rattle.value_models.specs.ContainerView.{container_view};
ghost use Rattle.value_models.specs.ContainersView.{containers_in};
ghost use Rattle.model_defs.specs.Model.{struct_model};
ghost use Rattle.describe_defs.specs.Plain.{is_length_rule as is_length_rule_in, is_plain_body, is_plain_item as is_plain_item_in, is_plain_newtype as is_plain_newtype_in};

use crate::enums::is_plain_enum;
use crate::fields::is_plain_struct;
use crate::types::{is_plain_type, is_string};
use conversion_table::{Conversions, Rule};
use std::alloc::{AllocError, Global};
use value_kinds::ModelTable;
use value_models::{Body, Container, Containers, Field, Style};
use value_parts::rule_of;

#[tactic(auto, using(crate::proofs::Ruled::no_patterns))]
fn has_lengths_alone(rule: &Rule) -> bool
    ensures { result ≡ is_length_rule_in (Some (rule_view rule.now)) }
{
    match rule {
        Rule::Text {
            least: _,
            most: _,
            all,
            any,
        } => all.is_empty() && any.is_empty(),
        Rule::Allow(_) | Rule::Deny(_) => false,
    }
}

// Whether the rule asks lengths of a text, and nothing else.
fn is_length_rule(rule: Option<&Rule>) -> bool
    ensures { result ≡ is_length_rule_in (option_map rule_view (option_copied rule.entry)) }
{
    match rule {
        Some(rule) => has_lengths_alone(rule),
        None => false,
    }
}

#[tactic(auto, using(crate::proofs::Ruled::by_rule))]
fn is_plain_only(
    containers: &Containers,
    conversions: &Conversions,
    container: &Container,
    field: &Field,
) -> bool
    ensures { result ≡ is_plain_newtype_in (containers_in containers.now) (conversions_view conversions.now) (container_view container.now) (field_view field.now ∷ []) }
{
    if !is_plain_type(containers, &field.field_type) {
        return false;
    }
    if !container.try_from {
        return true;
    }
    is_string(&field.field_type)
        && is_length_rule(rule_of(&conversions.constraints, &container.name))
}

fn is_plain_newtype(
    containers: &Containers,
    conversions: &Conversions,
    container: &Container,
    fields: &[Field],
) -> bool
    ensures { result ≡ is_plain_newtype_in (containers_in containers.now) (conversions_view conversions.now) (container_view container.now) (fields_view fields.now) }
{
    match fields {
        [field] => is_plain_only(containers, conversions, container, field),
        _ => false,
    }
}

fn is_plain_struct_item(
    alloc: Global,
    table: &ModelTable,
    conversions: &Conversions,
    container: &Container,
    style: Style,
    fields: &[Field],
) -> Result<bool, AllocError>
    ensures { IfOk result (λ b. b ≡ is_plain_body (containers_in table.now.containers) (conversions_view conversions.now) (container_view container.now) (struct_model (style_view style) (fields_view fields.now))) }
{
    match style {
        Style::Struct => {
            let plain = is_plain_struct(alloc, table, container.closed, fields)?;
            Ok(!container.try_from && plain)
        }
        Style::Newtype => Ok(is_plain_newtype(&table.containers, conversions, container, fields)),
        Style::Tuple | Style::Unit => Ok(false),
    }
}

/// Whether the item is plain by itself.
pub(crate) fn is_plain_item(
    alloc: Global,
    table: &ModelTable,
    conversions: &Conversions,
    container: &Container,
) -> Result<bool, AllocError>
    ensures { IfOk result (λ b. b ≡ is_plain_item_in (containers_in table.now.containers) (conversions_view conversions.now) (container_view container.now)) }
{
    match &container.body {
        Body::Struct(style, fields) => {
            let plain = is_plain_struct_item(
                alloc,
                table,
                conversions,
                container,
                *style,
                fields.fields(),
            )?;
            Ok(plain)
        }
        Body::Enum(tag, variants) => {
            let plain = is_plain_enum(alloc, table, container.closed, tag, variants.variants())?;
            Ok(!container.try_from && plain)
        }
    }
}
