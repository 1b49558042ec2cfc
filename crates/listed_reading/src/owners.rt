//! Lists and objects, which aren't looked into.
ghost use Rattle.std.specs.Prelude.{◌≡◌, false, IfErr, OnOk};
ghost use Rattle.json_value.specs.View.{kept_view};
ghost use Rattle.listed_reading.specs.Owners.{is_list as is_list_value, is_object as is_object_value};

use schema_tree::TextFault;
use serde_json::Value;

#[tactic(auto, using(crate::proofs::Seen::list_seen))]
fn is_list(value: &Value) -> bool
    ensures { result ≡ is_list_value (kept_view value.now) }
{
    value.is_array()
}

#[tactic(auto, using(crate::proofs::Seen::object_seen))]
fn is_object(value: &Value) -> bool
    ensures { result ≡ is_object_value (kept_view value.now) }
{
    value.is_object()
}

/// A list is answered by want of memory.
pub fn no_list(value: &Value) -> Result<(), TextFault>
    ensures answer { OnOk result (is_list_value (kept_view value.now) ≡ false) }
    ensures memory { IfErr result (λ e. e ≡ TextFault.Memory) }
{
    if is_list(value) {
        return Err(TextFault::Memory);
    }
    Ok(())
}

/// An object is answered by want of memory.
pub fn no_object(value: &Value) -> Result<(), TextFault>
    ensures answer { OnOk result (is_object_value (kept_view value.now) ≡ false) }
    ensures memory { IfErr result (λ e. e ≡ TextFault.Memory) }
{
    if is_object(value) {
        return Err(TextFault::Memory);
    }
    Ok(())
}
