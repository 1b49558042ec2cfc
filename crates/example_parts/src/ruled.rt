//! The values that rules give.
ghost use Rattle.std.specs.Prelude.{◌≡◌, ◌&&◌, IfOk, None, Some, map, option_map, replicate, string_bytes};
ghost use Rattle.std.specs.Option.{option_copied};
ghost use Rattle.json_value.specs.Value.{text};
ghost use Rattle.json_value.specs.View.{kept_view};
ghost use Rattle.conversion_table.specs.Conversions.{rule_view};
ghost use Rattle.model_defs.specs.Reads.{reads};
ghost use Rattle.example_defs.specs.Built.{first_that, has_no_patterns as has_no_patterns_in, inner_type as inner_type_in, is_small as is_small_in, number_or_zero, ruled_value as ruled_value_in, text_under as text_under_in, value_under as value_under_in};
ghost use Rattle.example_defs.specs.Enough.{no_texts};
ghost use Rattle.value_models.specs.ContainerView.{body_view, container_view};
ghost use Rattle.value_models.specs.TypeView.{type_view};
ghost use Rattle.value_taking.specs.Given.{or_outside};
ghost use Rattle.example_parts.specs.SettingView.{conversions_of, models_of};

use crate::setting::Setting;
use crate::small::is_small;
use conversion_table::Rule;
use schema_texts::is_within;
use serde_json::Value;
use std::alloc::{AllocError, Global};
use value_models::{Body, Container, Style, ValueType};
use value_parts::rule_of;
use value_taking::takes;

/// Whether a rule asks for no pattern.
pub(crate) fn has_no_patterns(all: &[String], any: &[String]) -> bool
    ensures { result ≡ has_no_patterns_in (record { least = None; most = None; all = map string_bytes all.now; any = map string_bytes any.now }) }
{
    all.is_empty() && any.is_empty()
}

fn number_or_zero(least: Option<u32>) -> u32
    ensures { result ≡ number_or_zero least }
{
    match least {
        Some(least) => least,
        None => 0,
    }
}

// `a`, so many times.

fn text_of(alloc: Global, count: u32) -> Result<Value, AllocError>
    ensures { IfOk result (λ v. kept_view v ≡ text (replicate count 97)) }
{
    let copies = "a".repeat(alloc, count as usize)?;
    Ok(Value::String(copies))
}

fn copied(value: &Value) -> Result<Value, AllocError>
    ensures { IfOk result (λ v. kept_view v ≡ kept_view value.now) }
{
    let copy = value.clone()?;
    Ok(copy)
}

/// The type of a newtype's field, where the item is a newtype.
pub fn inner_type(body: &Body) -> Option<&ValueType>
    ensures { or_outside (option_map (λ t. type_view t.now) result) ≡ inner_type_in (body_view body.now) }
{
    match body {
        Body::Struct(Style::Newtype, fields) => match fields.fields() {
            [field] => Some(&field.field_type),
            _ => None,
        },
        _ => None,
    }
}

// Whether the type, where there is one, reads the value.
fn is_read(
    setting: &Setting<'_>,
    inner: Option<&ValueType>,
    value: &Value,
) -> Result<bool, AllocError>
    ensures { let t = or_outside (option_map (λ t. type_view t.now) inner.entry) in
        IfOk result (λ b. b ≡ reads (models_of setting.now) (conversions_of setting.now) no_texts t (kept_view value.now)) }
{
    match inner {
        Some(ty) => {
            let taken = takes(
                setting.alloc,
                setting.containers,
                setting.conversions,
                ty,
                value,
            )?;
            Ok(taken)
        }
        None => Ok(false),
    }
}

// Whether the value is small, and the type reads it.
fn is_small_and_read(
    setting: &Setting<'_>,
    inner: Option<&ValueType>,
    value: &Value,
) -> Result<bool, AllocError>
    ensures { let t = or_outside (option_map (λ t. type_view t.now) inner.entry) in
        IfOk result (λ b. b ≡ (is_small_in (kept_view value.now) && reads (models_of setting.now) (conversions_of setting.now) no_texts t (kept_view value.now))) }
{
    if !is_small(value) {
        return Ok(false);
    }
    let read = is_read(setting, inner, value)?;
    Ok(read)
}

// The first small value that the type reads.
fn first_read(
    setting: &Setting<'_>,
    inner: Option<&ValueType>,
    values: &[Value],
) -> Result<Option<Value>, AllocError>
    ensures { let t = or_outside (option_map (λ t. type_view t.now) inner.entry) in
        IfOk result (λ o. option_map kept_view o ≡ first_that (λ v. is_small_in v && reads (models_of setting.now) (conversions_of setting.now) no_texts t v) (map kept_view values.now)) }
{
    for value in values {
        if is_small_and_read(setting, inner, value)? {
            let copy = copied(value)?;
            return Ok(Some(copy));
        }
    }
    Ok(None)
}

// `a`, as often as the least length says, where that isn't above the greatest and no pattern is asked.
fn text_under(
    alloc: Global,
    least: Option<u32>,
    most: Option<u32>,
    all: &[String],
    any: &[String],
) -> Result<Option<Value>, AllocError>
    ensures { IfOk result (λ o. option_map kept_view o ≡ text_under_in (record { least = least; most = most; all = map string_bytes all.now; any = map string_bytes any.now })) }
{
    let count = number_or_zero(least);
    if has_no_patterns(all, any) && is_within(least, most, count as usize) {
        let value = text_of(alloc, count)?;
        return Ok(Some(value));
    }
    Ok(None)
}

// What the rule gives, where the inner type is known.
fn value_by(
    setting: &Setting<'_>,
    inner: Option<&ValueType>,
    rule: &Rule,
) -> Result<Option<Value>, AllocError>
    ensures { let t = or_outside (option_map (λ t. type_view t.now) inner.entry) in
        IfOk result (λ o. option_map kept_view o ≡ value_under_in (reads (models_of setting.now) (conversions_of setting.now) no_texts t) (Some (rule_view rule.now))) }
{
    match rule {
        Rule::Text {
            least,
            most,
            all,
            any,
        } => {
            let value = text_under(setting.alloc, *least, *most, all, any)?;
            Ok(value)
        }
        Rule::Allow(values) => {
            let value = first_read(setting, inner, values)?;
            Ok(value)
        }
        Rule::Deny(_) => Ok(None),
    }
}

fn value_under(
    setting: &Setting<'_>,
    inner: Option<&ValueType>,
    rule: Option<&Rule>,
) -> Result<Option<Value>, AllocError>
    ensures { let t = or_outside (option_map (λ t. type_view t.now) inner.entry) in
        IfOk result (λ o. option_map kept_view o ≡ value_under_in (reads (models_of setting.now) (conversions_of setting.now) no_texts t) (option_map rule_view (option_copied rule.entry))) }
{
    match rule {
        Some(rule) => {
            let value = value_by(setting, inner, rule)?;
            Ok(value)
        }
        None => Ok(None),
    }
}

/// The value that the rule of the item gives: `a` as often as its least length says; the first small value that it lists and
/// the item's inner type reads, where no text is judged; none of values that it doesn't allow. It fails where memory runs
/// out.
pub fn ruled_value(
    setting: &Setting<'_>,
    container: &Container,
) -> Result<Option<Value>, AllocError>
    ensures { IfOk result (λ o. option_map kept_view o ≡ ruled_value_in (models_of setting.now) (conversions_of setting.now) no_texts (container_view container.now)) }
{
    let rule = rule_of(&setting.conversions.constraints, &container.name);
    let value = value_under(setting, inner_type(&container.body), rule)?;
    Ok(value)
}
