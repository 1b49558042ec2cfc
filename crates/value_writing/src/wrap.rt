//! The contents of variants, wrapped as the representation of their enum says.
ghost use Rattle.std.specs.Prelude.{◌≡◌, IfOk, string_bytes};
ghost use Rattle.typed_defs.specs.Written.{beside_content as beside_content_in, beside_tag as beside_tag_in, by_name as by_name_in, wrapped as wrapped_in};
ghost use Rattle.value_models.specs.VariantView.{variant_view};
ghost use Rattle.value_models.specs.ContainerView.{tag_view};
ghost use Rattle.json_value.specs.View.{kept_view};

use crate::fields::is_unit;
use crate::members::{name_value, put_member};
use serde_json::Value;
use serde_json::value::Map;
use std::alloc::{AllocError, Global};
use value_models::{Tag, Variant};

/// The contents, with what says which variant they are of.
pub(crate) fn wrapped(
    alloc: Global,
    tag: &Tag,
    chosen: &Variant,
    content: Value,
) -> Result<Value, AllocError>
    ensures { IfOk result (λ v. kept_view v ≡ wrapped_in (tag_view tag.now) (variant_view chosen.now) (kept_view content)) }
{
    match tag {
        Tag::External => {
            let value = by_name(alloc, chosen, content)?;
            Ok(value)
        }
        Tag::Internal(tag) => {
            let value = beside_tag(alloc, tag, &chosen.serialize_name, content)?;
            Ok(value)
        }
        Tag::Adjacent(tag, name) => {
            let value = beside_content(alloc, tag, name, chosen, content)?;
            Ok(value)
        }
        Tag::Untagged => Ok(content),
    }
}

fn by_name(alloc: Global, chosen: &Variant, content: Value) -> Result<Value, AllocError>
    ensures { IfOk result (λ v. kept_view v ≡ by_name_in (variant_view chosen.now) (kept_view content)) }
{
    if is_unit(chosen.style) {
        let name = name_value(&chosen.serialize_name)?;
        return Ok(name);
    }
    let mut members = Map::new(alloc);
    put_member(alloc, &mut members, &chosen.serialize_name, content)?;
    Ok(Value::Object(members))
}

fn beside_tag(alloc: Global, tag: &str, name: &String, content: Value) -> Result<Value, AllocError>
    ensures { IfOk result (λ v. kept_view v ≡ beside_tag_in tag.now (string_bytes name.now) (kept_view content)) }
{
    let name = name_value(name)?;
    match content {
        Value::Object(members) => {
            let mut members = members;
            put_member(alloc, &mut members, tag, name)?;
            Ok(Value::Object(members))
        }
        Value::Null => {
            let mut members = Map::new(alloc);
            put_member(alloc, &mut members, tag, name)?;
            Ok(Value::Object(members))
        }
        _ => Ok(Value::Null),
    }
}

fn beside_content(
    alloc: Global,
    tag: &str,
    content_name: &str,
    chosen: &Variant,
    content: Value,
) -> Result<Value, AllocError>
    ensures { IfOk result (λ v. kept_view v ≡ beside_content_in tag.now content_name.now (variant_view chosen.now) (kept_view content)) }
{
    let name = name_value(&chosen.serialize_name)?;
    let mut members = Map::new(alloc);
    if is_unit(chosen.style) {
        put_member(alloc, &mut members, tag, name)?;
        return Ok(Value::Object(members));
    }
    put_member(alloc, &mut members, content_name, content)?;
    put_member(alloc, &mut members, tag, name)?;
    Ok(Value::Object(members))
}
