//! Items as schemas.
ghost use Rattle.std.specs.Prelude.{◌≡◌, [], ◌∷◌, IfOk, OnOk, Some, option_map};
ghost use Rattle.std.specs.Option.{option_copied};
ghost use Rattle.json_value.specs.View.{kept_view};
ghost use Rattle.conversion_table.specs.Conversions.{conversions_view, rule_view};
ghost use Rattle.value_models.specs.FieldView.{field_view, fields_view, style_view};
ghost use Rattle.value_models.specs.ContainerView.{container_view};
ghost use Rattle.model_defs.specs.Model.{struct_model};
ghost use Rattle.describe_defs.specs.Written.{body_value, item_value as item_value_of, lengths_value as lengths_value_of, newtype_value as newtype_value_of, ruled_value as ruled_value_of};
ghost use Rattle.value_writing.specs.Seen.{kept_members};
ghost use Rattle.described_values.specs.Shown.{put_length as put_length_in};

use crate::contents::struct_value;
use crate::enums::enum_value;
use conversion_table::{Conversions, Rule};
use described_types::{size_value, text_value, type_value};
use serde_json::Value;
use serde_json::value::Map;
use std::alloc::{AllocError, Global};
use value_models::{Body, Container, Field, Style};
use value_parts::rule_of;
use value_writing::put_member;

fn put_length(
    alloc: Global,
    members: &mut Map<String, Value>,
    name: &str,
    length: Option<u32>,
) -> Result<(), AllocError>
    ensures { OnOk result (kept_members members.new.entries ≡ put_length_in name.now length (kept_members members.old.entries)) }
{
    match length {
        Some(length) => {
            put_member(alloc, members, name, size_value(u64::from(length)))?;
            Ok(())
        }
        None => Ok(()),
    }
}

// A text with lengths.
#[tactic(auto, using(crate::proofs::Lengths::lengths_are))]
fn lengths_value(alloc: Global, least: Option<u32>, most: Option<u32>) -> Result<Value, AllocError>
    ensures { IfOk result (λ v. kept_view v ≡ lengths_value_of least most) }
{
    let kind = text_value(alloc, "string")?;
    let mut members = Map::new(alloc);
    put_member(alloc, &mut members, "type", kind)?;
    put_length(alloc, &mut members, "minLength", least)?;
    put_length(alloc, &mut members, "maxLength", most)?;
    Ok(Value::Object(members))
}

fn rule_value(alloc: Global, rule: &Rule) -> Result<Value, AllocError>
    ensures { IfOk result (λ v. kept_view v ≡ ruled_value_of (Some (rule_view rule.now))) }
{
    match rule {
        Rule::Text {
            least,
            most,
            all: _,
            any: _,
        } => {
            let value = lengths_value(alloc, *least, *most)?;
            Ok(value)
        }
        Rule::Allow(_) | Rule::Deny(_) => Ok(Value::Null),
    }
}

fn ruled_value(alloc: Global, rule: Option<&Rule>) -> Result<Value, AllocError>
    ensures { IfOk result (λ v. kept_view v ≡ ruled_value_of (option_map rule_view (option_copied rule.entry))) }
{
    match rule {
        Some(rule) => {
            let value = rule_value(alloc, rule)?;
            Ok(value)
        }
        None => Ok(Value::Null),
    }
}

// One unnamed field: what it holds, or the rule of the item where the item has to meet one.
#[tactic(auto, using(crate::proofs::Lengths::by_rule))]
fn only_value(
    alloc: Global,
    conversions: &Conversions,
    container: &Container,
    field: &Field,
) -> Result<Value, AllocError>
    ensures { IfOk result (λ v. kept_view v ≡ newtype_value_of (conversions_view conversions.now) (container_view container.now) (field_view field.now ∷ [])) }
{
    if container.try_from {
        let value = ruled_value(alloc, rule_of(&conversions.constraints, &container.name))?;
        return Ok(value);
    }
    let value = type_value(alloc, &field.field_type)?;
    Ok(value)
}

fn newtype_value(
    alloc: Global,
    conversions: &Conversions,
    container: &Container,
    fields: &[Field],
) -> Result<Value, AllocError>
    ensures { IfOk result (λ v. kept_view v ≡ newtype_value_of (conversions_view conversions.now) (container_view container.now) (fields_view fields.now)) }
{
    match fields {
        [field] => {
            let value = only_value(alloc, conversions, container, field)?;
            Ok(value)
        }
        _ => Ok(Value::Null),
    }
}

fn struct_item(
    alloc: Global,
    conversions: &Conversions,
    container: &Container,
    style: Style,
    fields: &[Field],
) -> Result<Value, AllocError>
    ensures { IfOk result (λ v. kept_view v ≡ body_value (conversions_view conversions.now) (container_view container.now) (struct_model (style_view style) (fields_view fields.now))) }
{
    match style {
        Style::Struct => {
            let value = struct_value(alloc, container.closed, fields)?;
            Ok(value)
        }
        Style::Newtype => {
            let value = newtype_value(alloc, conversions, container, fields)?;
            Ok(value)
        }
        Style::Tuple | Style::Unit => Ok(Value::Null),
    }
}

/// An item.
pub(crate) fn item_value(
    alloc: Global,
    conversions: &Conversions,
    container: &Container,
) -> Result<Value, AllocError>
    ensures { IfOk result (λ v. kept_view v ≡ item_value_of (conversions_view conversions.now) (container_view container.now)) }
{
    match &container.body {
        Body::Struct(style, fields) => {
            let value = struct_item(alloc, conversions, container, *style, fields.fields())?;
            Ok(value)
        }
        Body::Enum(tag, variants) => {
            let value = enum_value(alloc, container.closed, tag, variants.variants())?;
            Ok(value)
        }
    }
}
