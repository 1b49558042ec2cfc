//! The two schemas of an input.
ghost use Rattle.std.specs.Prelude.{◌≡◌, option_map};
ghost use Rattle.serde_json.specs.View.{view};
ghost use Rattle.pair_words.specs.Input.{pair_of};

use serde_json::Value;

/// Two schemas.
#[derive(Clone, Copy)]
pub(crate) struct Schemas<'a> {
    pub(crate) old: &'a Value,
    pub(crate) new: &'a Value,
}

/// The schemas of an object with exactly the members `old` and `new`.
pub(crate) fn schemas_of(value: &Value) -> Option<Schemas<'_>>
    ensures { option_map (λ s. record { old = view s.old.now; new = view s.new.now }) result ≡ pair_of (view value.now) }
{
    let Value::Object(members) = value else {
        return None;
    };
    let mut entries = members.iter();
    let Some((first, new)) = entries.next() else {
        return None;
    };
    let Some((second, old)) = entries.next() else {
        return None;
    };
    if entries.next().is_some() || first.as_str() != "new" || second.as_str() != "old" {
        return None;
    }
    Some(Schemas { old, new })
}
