//! Lists, objects and texts.
ghost use Rattle.std.specs.Prelude.{◌≡◌, IfSome, option_map};
ghost use Rattle.serde_json.specs.View.{items_view, members_view};
ghost use Rattle.json_value.specs.View.{items_of, members_of, kept_view};
ghost use Rattle.default_reading.specs.Steps.{Differ, as_list, as_object, as_text};

use serde_json::Value;
use serde_json::value::Map;

/// The items of a list.
#[tactic(auto, using(crate::proofs::Owned::list_seen))]
pub fn list_of(value: &Value) -> Option<&Vec<Value>>
    ensures { option_map (λ x. items_of (items_view x.now.items)) result ≡ as_list (kept_view value.now) }
{
    value.as_array()
}

#[tactic(auto, using(crate::proofs::Owned::object_seen))]
fn members_of_object(value: &Value) -> Option<&Map<String, Value>>
    ensures { option_map (λ x. members_of (members_view x.now.entries)) result ≡ as_object (kept_view value.now) }
{
    value.as_object()
}

/// The members of an object. Their count says that their names rise, so that none stands twice.
pub fn object_of(value: &Value) -> Option<&Map<String, Value>>
    ensures value { option_map (λ x. members_of (members_view x.now.entries)) result ≡ as_object (kept_view value.now) }
    ensures names { IfSome result (λ x. Differ (members_of (members_view x.now.entries))) }
{
    match members_of_object(value) {
        Some(members) => {
            let _count = members.len();
            Some(members)
        }
        None => None,
    }
}

/// A text.
#[tactic(auto, using(crate::proofs::Owned::text_seen))]
pub fn text_of(value: &Value) -> Option<&str>
    ensures { option_map (λ x. x.now) result ≡ as_text (kept_view value.now) }
{
    value.as_str()
}
