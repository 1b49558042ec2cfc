//! The members of objects.
ghost use Rattle.std.specs.Prelude.{◌≡◌, ◌&&◌, IfErr, IfOk, option_map, string_bytes};
ghost use Rattle.serde_json.specs.View.{members_view};
ghost use Rattle.json_value.specs.Value.{member_at, text};
ghost use Rattle.json_value.specs.View.{members_of, kept_view};
ghost use Rattle.default_reading.specs.Steps.{given_at, only_of, has_beyond as has_beyond_in, is_passed as is_passed_of};

use schema_tree::TextFault;
use serde_json::Value;
use serde_json::value::Map;

/// The name as a text.
pub fn text_value(name: &String) -> Result<Value, TextFault>
    ensures answer { IfOk result (λ v. kept_view v ≡ text (string_bytes name.now)) }
    ensures memory { IfErr result (λ e. e ≡ TextFault.Memory) }
{
    match name.clone() {
        Ok(copy) => Ok(Value::String(copy)),
        Err(_) => Err(TextFault::Memory),
    }
}

/// The member of that name.
pub fn member<'v>(members: &'v Map<String, Value>, name: &str) -> Option<&'v Value>
    ensures { option_map (λ x. kept_view x.now) result ≡ member_at name.now (members_of (members_view members.now.entries)) }
{
    members.get(name)
}

pub fn is_passed(passed: Option<&str>, name: &str) -> bool
    ensures { result ≡ is_passed_of (option_map (λ p. p.now) passed.entry) name.now }
{
    match passed {
        Some(passed) => passed == name,
        None => false,
    }
}

/// The member of that name, unless it is passed over.
pub fn given_member<'v>(
    passed: Option<&str>,
    members: &'v Map<String, Value>,
    name: &str,
) -> Option<&'v Value>
    ensures { option_map (λ x. kept_view x.now) result ≡ given_at (option_map (λ p. p.now) passed.entry) name.now (members_of (members_view members.now.entries)) }
{
    if is_passed(passed, name) {
        return None;
    }
    member(members, name)
}

/// Whether a member has neither name.
pub fn has_beyond(members: &Map<String, Value>, one: &str, other: &str) -> bool
    ensures { result ≡ has_beyond_in one.now other.now (members_of (members_view members.now.entries)) }
{
    for (name, _) in members.iter() {
        if one != name.as_str() && other != name.as_str() {
            return true;
        }
    }
    false
}

/// Whether what is closed has a member with neither name.
pub fn is_too_much(closed: bool, members: &Map<String, Value>, one: &str, other: &str) -> bool
    ensures { result ≡ (closed && has_beyond_in one.now other.now (members_of (members_view members.now.entries))) }
{
    if !closed {
        return false;
    }
    has_beyond(members, one, other)
}

/// The only member.
pub fn only_member(members: &Map<String, Value>) -> Option<(&String, &Value)>
    ensures { option_map (λ p. (string_bytes p.0.now, kept_view p.1.now)) result ≡ only_of (members_of (members_view members.now.entries)) }
{
    if members.len() != 1 {
        return None;
    }
    members.iter().next()
}
