//! Members put in order of their names.
ghost use Rattle.std.specs.Prelude.{◌≡◌, [], IfOk, OnOk, string_bytes};
ghost use Rattle.json_value.specs.Value.{text};
ghost use Rattle.model_defs.specs.Settled.{put, text_of};
ghost use Rattle.json_value.specs.View.{kept_view};
ghost use Rattle.value_writing.specs.Seen.{kept_members};

use serde_json::Value;
use serde_json::value::Map;
use std::alloc::{AllocError, Global};

/// Puts a member where its name stands in order, in place of one of that name. It fails where memory runs out.
#[tactic(auto, using(crate::proofs::Turns::entry_put))]
pub fn put_member(
    alloc: Global,
    members: &mut Map<String, Value>,
    name: &str,
    value: Value,
) -> Result<(), AllocError>
    ensures { OnOk result (kept_members members.new.entries ≡ put name.now (kept_view value) (kept_members members.old.entries)) }
{
    let name = String::from_str(alloc, name)?;
    let _ = members.insert(name, value)?;
    Ok(())
}

/// Puts a member by a name that was written; the name is a text.
pub(crate) fn put_named(
    alloc: Global,
    members: &mut Map<String, Value>,
    name: &Value,
    value: Value,
) -> Result<(), AllocError>
    ensures { OnOk result (kept_members members.new.entries ≡ put (text_of [] (kept_view name.now)) (kept_view value) (kept_members members.old.entries)) }
{
    match name {
        Value::String(text) => {
            put_member(alloc, members, text, value)?;
            Ok(())
        }
        _ => {
            put_member(alloc, members, "", value)?;
            Ok(())
        }
    }
}

/// The name as a value.
pub(crate) fn name_value(name: &String) -> Result<Value, AllocError>
    ensures { IfOk result (λ v. kept_view v ≡ text (string_bytes name.now)) }
{
    Ok(Value::String(name.clone()?))
}
