//! The members of objects, as a list.
ghost use Rattle.std.specs.Prelude.{◌≡◌, ◌++◌, ◌∷◌, [], IfErr, IfOk, option_map};
ghost use Rattle.serde_json.specs.View.{members_view};
ghost use Rattle.json_value.specs.Value.{entries, text};
ghost use Rattle.json_value.specs.View.{members_of as members_in, kept_view};
ghost use Rattle.value_parts.specs.Choice.{entries_without, entry_of};
ghost use Rattle.value_parts.specs.Entries.{entries_view, entry_view};

use schema_texts::TextFault;
use serde_json::Value;
use serde_json::value::Map;
use std::alloc::Global;

/// A member of an object.
#[derive(Clone, Copy)]
pub struct Member<'a> {
    pub name: &'a str,
    pub value: &'a Value,
}

/// Adds a member. It fails where memory runs out.
pub fn push_member<'a>(members: &mut Vec<Member<'a>>, member: Member<'a>) -> Result<(), TextFault>
    ensures answer { IfOk result (λ _. members.new.items ≡ members.old.items ++ member.entry ∷ []) }
    ensures memory { IfErr result (λ e. e ≡ TextFault.Memory) }
{
    match members.push(member) {
        Ok(()) => Ok(()),
        Err(_) => Err(TextFault::Memory),
    }
}

/// The members of an object, in order.
#[tactic(auto, using(crate::proofs::EntryTurns::member_turn, crate::proofs::EntryTurns::members_end))]
pub fn members_of(alloc: Global, object: &Map<String, Value>) -> Result<Vec<Member<'_>>, TextFault>
    ensures answer { IfOk result (λ v. entries_view v.items ≡ entries (members_in (members_view object.now.entries))) }
    ensures memory { IfErr result (λ e. e ≡ TextFault.Memory) }
{
    let mut members = Vec::new(alloc);
    for (name, value) in object.iter() {
        push_member(&mut members, Member { name, value })?;
    }
    Ok(members)
}

/// The first member of that name.
#[tactic(auto, using(crate::proofs::EntryTurns::entry_here, crate::proofs::EntryTurns::entry_later, crate::proofs::EntryTurns::entry_nowhere))]
pub fn member_named<'a>(members: &[Member<'a>], name: &str) -> Option<Member<'a>>
    ensures { option_map entry_view result ≡ entry_of name.now (entries_view members.now) }
{
    for at in 0..members.len() {
        let member = members[at];
        if name == member.name {
            return Some(member);
        }
    }
    None
}

/// The members of other names.
#[tactic(auto, using(crate::proofs::EntryTurns::other_kept, crate::proofs::EntryTurns::other_dropped, crate::proofs::EntryTurns::others_end))]
pub fn members_without<'a>(
    alloc: Global,
    members: &[Member<'a>],
    name: &str,
) -> Result<Vec<Member<'a>>, TextFault>
    ensures answer { IfOk result (λ v. entries_view v.items ≡ entries_without name.now (entries_view members.now)) }
    ensures memory { IfErr result (λ e. e ≡ TextFault.Memory) }
{
    let mut others = Vec::new(alloc);
    for at in 0..members.len() {
        let member = members[at];
        if name != member.name {
            push_member(&mut others, member)?;
        }
    }
    Ok(others)
}

/// A name as a value.
pub fn name_value(alloc: Global, name: &str) -> Result<Value, TextFault>
    ensures answer { IfOk result (λ v. kept_view v ≡ text name.now) }
    ensures memory { IfErr result (λ e. e ≡ TextFault.Memory) }
{
    match String::from_str(alloc, name) {
        Ok(text) => Ok(Value::String(text)),
        Err(_) => Err(TextFault::Memory),
    }
}
