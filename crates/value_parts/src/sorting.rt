//! Sorting members by fields: one look-up for each member.
ghost use Rattle.std.specs.Prelude.{◌≡◌, ◌++◌, ◌<◌, ◌≤◌, IfErr, IfOk, OnOk, length, map, option_map};
ghost use Rattle.value_models.specs.Names.{field_names};
ghost use Rattle.value_models.specs.FieldView.{fields_view};
ghost use Rattle.value_models.specs.VariantView.{fields_in};
ghost use Rattle.value_parts.specs.Entries.{entries_view, entry_view, slot_view};
ghost use Rattle.value_parts.specs.Slots.{added, empty_slots as empty_slots_in, entries_at, entries_size, entries_without_place, first_if, first_two, slots_after};
ghost use Rattle.value_parts.specs.SortedView.{IsSorted, sorted_entries, sorted_names};

use crate::members::{Member, push_member};
use crate::slots::{Slot, with_member};
use crate::sorted::Sorted;
use schema_texts::TextFault;
use std::alloc::Global;
use value_models::{Field, Fields};

// A slot for each field.
#[tactic(auto, using(crate::proofs::IntoSlots::empty_turn, crate::proofs::IntoSlots::empty_end))]
fn empty_slots<'a>(alloc: Global, fields: &[Field]) -> Result<Vec<Slot<'a>>, TextFault>
    ensures answer { IfOk result (λ v. map slot_view v.items ≡ empty_slots_in (length (fields_view fields.now))) }
    ensures memory { IfErr result (λ e. e ≡ TextFault.Memory) }
{
    let mut slots = Vec::new(alloc);
    for _ in fields {
        match slots.push(Slot::Empty) {
            Ok(()) => {}
            Err(_) => return Err(TextFault::Memory),
        }
    }
    Ok(slots)
}

// The member in the slot of that place; a place behind the last has none.
#[tactic(auto, using(crate::proofs::IntoSlots::slot_added, crate::proofs::IntoSlots::slot_behind))]
fn add_member<'a>(slots: &mut Vec<Slot<'a>>, place: u32, member: Member<'a>)
    ensures { map slot_view slots.new.items ≡ added place (entry_view member.entry) (map slot_view slots.old.items) }
{
    let place = place as usize;
    if place < slots.len() {
        let slot = with_member(slots[place], member);
        slots[place] = slot;
    }
}

// Puts each member where it belongs.
#[tactic(auto, using(crate::proofs::IntoSlots::slots_turn, crate::proofs::IntoSlots::slots_end, crate::proofs::IntoSlots::unnamed_kept, crate::proofs::IntoSlots::unnamed_dropped, crate::proofs::IntoSlots::unnamed_end))]
fn sort_members<'a>(
    fields: &Fields,
    members: &[Member<'a>],
    slots: &mut Vec<Slot<'a>>,
    unnamed: &mut Vec<Member<'a>>,
) -> Result<(), TextFault>
    ensures slots { let names = field_names 0 (fields_in fields.now) in
        OnOk result (map slot_view slots.new.items ≡ slots_after names (entries_view members.now) (map slot_view slots.old.items)) }
    ensures unnamed { let names = field_names 0 (fields_in fields.now) in
        OnOk result (entries_view unnamed.new.items ≡ entries_view unnamed.old.items ++ entries_without_place names (entries_view members.now)) }
    ensures memory { IfErr result (λ e. e ≡ TextFault.Memory) }
{
    for at in 0..members.len() {
        let member = members[at];
        match fields.place(member.name) {
            Some(place) => add_member(slots, place, member),
            None => push_member(unnamed, member)?,
        }
    }
    Ok(())
}

/// The members, sorted by the fields: one look-up for each. It fails where memory runs out.
#[tactic(auto, using(crate::proofs::IntoSlots::is_sorted))]
pub fn sort<'a>(
    alloc: Global,
    fields: &'a Fields,
    members: &'a [Member<'a>],
) -> Result<Sorted<'a>, TextFault>
    ensures fields { IfOk result (λ s. fields_in s.fields.now ≡ fields_in fields.now) }
    ensures members { IfOk result (λ s. sorted_entries s ≡ entries_view members.now) }
    ensures sorted { IfOk result (λ s. IsSorted s) }
    ensures memory { IfErr result (λ e. e ≡ TextFault.Memory) }
{
    let mut slots = empty_slots(alloc, fields.fields())?;
    let mut unnamed = Vec::new(alloc);
    sort_members(fields, members, &mut slots, &mut unnamed)?;
    Ok(Sorted {
        fields,
        members,
        slots,
        unnamed,
    })
}

fn first_if_closed<'a>(closed: bool, members: &[Member<'a>]) -> Option<Member<'a>>
    ensures { option_map entry_view result ≡ first_if closed (entries_view members.now) }
{
    if closed && !members.is_empty() {
        return Some(members[0]);
    }
    None
}

impl<'a> Sorted<'a> {
    /// The fields.
    pub fn fields(&self) -> &'a [Field]
        ensures { fields_view result.now ≡ fields_in self.now.fields.now }
    {
        self.fields.fields()
    }

    /// The members that no field names.
    #[tactic(auto, using(crate::proofs::IntoSlots::unnamed_small))]
    pub fn unnamed(&self) -> &[Member<'a>]
        requires { IsSorted self.now }
        ensures are { entries_view result.now ≡ entries_without_place (sorted_names self.now) (sorted_entries self.now) }
        ensures small { entries_size (entries_view result.now) ≤ entries_size (sorted_entries self.now) }
    {
        &self.unnamed
    }

    /// Where unknown members are refused, the first that no field names.
    pub fn first_unknown(&self, closed: bool) -> Option<Member<'a>>
        requires { IsSorted self.now }
        ensures { option_map entry_view result ≡ first_if closed (entries_without_place (sorted_names self.now) (sorted_entries self.now)) }
    {
        first_if_closed(closed, &self.unnamed)
    }

    /// The members of the field at a place, as many as decide.
    #[tactic(auto, using(crate::proofs::IntoSlots::slot_is, crate::proofs::IntoSlots::slots_length, crate::proofs::IntoSlots::at_small))]
    pub fn slot(&self, place: usize) -> Slot<'a>
        requires place { place < length (fields_in self.now.fields.now) }
        requires sorted { IsSorted self.now }
        ensures are { slot_view result ≡ first_two (entries_at place (sorted_names self.now) (sorted_entries self.now)) }
        ensures small { entries_size (slot_view result) ≤ entries_size (sorted_entries self.now) }
    {
        if place < self.slots.len() {
            self.slots[place]
        } else {
            Slot::Empty
        }
    }
}
