//! The value of a variant, once that of its contents is made (serde.rs/enum-representations).
ghost use Rattle.std.specs.Prelude.{◌≡◌, option_map, IfOk, Some};
ghost use Rattle.json_value.specs.Value.{object, text};
ghost use Rattle.json_value.specs.View.{kept_view};
ghost use Rattle.example_defs.specs.Built.{ruled_value as ruled_value_in};
ghost use Rattle.example_defs.specs.Enough.{no_texts};
ghost use Rattle.example_defs.specs.Example.{members_of as members_of_in};
ghost use Rattle.example_parts.specs.SettingView.{conversions_of, models_of};
ghost use Rattle.model_defs.specs.Settled.{put};
ghost use Rattle.value_models.specs.ContainerView.{container_view, tag_view};
ghost use Rattle.value_writing.specs.Seen.{kept_members};
ghost use Rattle.example_values.specs.Pieces.{members_in, named_value, one_member, or_null as or_null_in, wrapped as wrapped_in};

use described_types::text_value;
use example_parts::{Setting, ruled_value};
use serde_json::Value;
use serde_json::value::Map;
use std::alloc::{AllocError, Global};
use value_models::{Container, Tag};
use value_writing::put_member;

/// Members as a value.
#[tactic(auto, using(value_writing::proofs::Lists::object_kept))]
pub(crate) fn members_value(members: Map<String, Value>) -> Value
    ensures { kept_view result ≡ object (kept_members members.entries) }
{
    Value::Object(members)
}

// ---- the parts of a variant's value

// The members of an object; of any other value none.
#[tactic(auto, using(crate::proofs::Wrapping::of_object))]
fn members_of(alloc: Global, value: Value) -> Map<String, Value>
    ensures { kept_members result.entries ≡ members_of_in (kept_view value) }
{
    match value {
        Value::Object(members) => members,
        _ => Map::new(alloc),
    }
}

fn contents_members(alloc: Global, contents: Option<Value>) -> Map<String, Value>
    ensures { kept_members result.entries ≡ members_in (option_map kept_view contents) }
{
    match contents {
        Some(value) => members_of(alloc, value),
        None => Map::new(alloc),
    }
}

fn under_name(
    alloc: Global,
    name: &str,
    contents: Option<Value>,
) -> Result<Map<String, Value>, AllocError>
    ensures { IfOk result (λ m. kept_members m.entries ≡ one_member name.now (option_map kept_view contents)) }
{
    let mut members = Map::new(alloc);
    let Some(value) = contents else {
        return Ok(members);
    };
    put_member(alloc, &mut members, name, value)?;
    Ok(members)
}

// With the tag among the members.
fn with_tag(
    alloc: Global,
    members: Map<String, Value>,
    tag: &str,
    name: &str,
) -> Result<Value, AllocError>
    ensures { IfOk result (λ v. kept_view v ≡ object (put tag.now (text name.now) (kept_members members.entries))) }
{
    let mut members = members;
    let name = text_value(alloc, name)?;
    put_member(alloc, &mut members, tag, name)?;
    Ok(members_value(members))
}

fn or_null(contents: Option<Value>) -> Value
    ensures { kept_view result ≡ or_null_in (option_map kept_view contents) }
{
    match contents {
        Some(value) => value,
        None => Value::Null,
    }
}

fn named_or_text(alloc: Global, name: &str, contents: Option<Value>) -> Result<Value, AllocError>
    ensures { IfOk result (λ v. kept_view v ≡ named_value name.now (option_map kept_view contents)) }
{
    let Some(value) = contents else {
        let value = text_value(alloc, name)?;
        return Ok(value);
    };
    let mut members = Map::new(alloc);
    put_member(alloc, &mut members, name, value)?;
    Ok(members_value(members))
}

/// The value of a variant of that name, with its contents where it is no unit.
pub(crate) fn wrapped(
    alloc: Global,
    tag: &Tag,
    name: &str,
    contents: Option<Value>,
) -> Result<Value, AllocError>
    ensures { IfOk result (λ v. kept_view v ≡ wrapped_in (tag_view tag.now) name.now (option_map kept_view contents)) }
{
    match tag {
        Tag::External => {
            let value = named_or_text(alloc, name, contents)?;
            Ok(value)
        }
        Tag::Internal(tag) => {
            let members = contents_members(alloc, contents);
            let value = with_tag(alloc, members, tag, name)?;
            Ok(value)
        }
        Tag::Adjacent(tag, content) => {
            let members = under_name(alloc, content, contents)?;
            let value = with_tag(alloc, members, tag, name)?;
            Ok(value)
        }
        Tag::Untagged => Ok(or_null(contents)),
    }
}

// ---- rules

/// The value that the rule of an item gives. Where it gives none there is nothing to make, and no memory is asked.
pub(crate) fn given_value(setting: &Setting<'_>, container: &Container) -> Result<Value, AllocError>
    ensures { IfOk result (λ v. Some (kept_view v) ≡ ruled_value_in (models_of setting.now) (conversions_of setting.now) no_texts (container_view container.now)) }
{
    let given = ruled_value(setting, container)?;
    match given {
        Some(value) => Ok(value),
        None => Err(AllocError),
    }
}
