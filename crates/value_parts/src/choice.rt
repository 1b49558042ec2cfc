//! Which variant a value is read as, before its contents are.
ghost use Rattle.std.specs.Prelude.{◌≡◌, [], IfErr, IfOk, option_map};
ghost use Rattle.json_value.specs.View.{kept_view};
ghost use Rattle.value_models.specs.ContainerView.{tag_view, variants_in};
ghost use Rattle.value_models.specs.VariantView.{variant_view};
ghost use Rattle.value_parts.specs.Choice.{adjacent_choice, adjacent_found as adjacent_found_in, bare_choice, choice as choice_in, closed_choice, content_choice, contents_choice, entries_in, entry_of, external_choice, internal_choice, internal_found as internal_found_in, one_choice, style_choice, unit_choice};
ghost use Rattle.reading_defs.specs.Reading.{taken, unit_of};
ghost use Rattle.value_parts.specs.Seen.{one_view};
ghost use Rattle.value_parts.specs.Entries.{choice_view, entries_view, entry_view, found_view};

use crate::built::bare_variant;
use crate::members::{Member, member_named, members_of, members_without};
use crate::outcome::{Outcome, refused_at, refused_here};
use crate::variants::{Found, is_unit, tagged, variant_named};
use schema_texts::TextFault;
use serde_json::Value;
use std::alloc::Global;
use value_models::{Fields, Style, Tag, Typed, Variant, Variants};

/// What is left to read of a value as an enum: nothing; the contents of a variant, the value of a member; the fields of a
/// variant, among the members beside a tag; or one variant after another.
#[derive(Drop)]
pub enum Choice<'a> {
    Settled(Outcome<Typed>),
    Inside(Found<'a>, Member<'a>),
    Beside(u32, &'a Fields, Vec<Member<'a>>),
    InTurn(&'a [Variant]),
}

fn unit_at(alloc: Global, place: u32) -> Outcome<Typed>
    ensures { one_view result ≡ taken (unit_of place []) }
{
    Outcome::Taken(bare_variant(alloc, place))
}

// A unit variant by its text.
fn choose_unit<'a>(alloc: Global, found: Option<Found<'a>>) -> Choice<'a>
    ensures { choice_view result ≡ unit_choice (option_map found_view found.entry) }
{
    match found {
        Some(found) => if is_unit(found.variant) {
            Choice::Settled(unit_at(alloc, found.place))
        } else {
            Choice::Settled(refused_here(alloc))
        },
        None => Choice::Settled(refused_here(alloc)),
    }
}

// Contents by the name of the one member.
fn choose_contents<'a>(alloc: Global, member: Member<'a>, found: Option<Found<'a>>) -> Choice<'a>
    ensures { choice_view result ≡ contents_choice (entry_view member.entry) (option_map found_view found.entry) }
{
    match found {
        Some(found) => if is_unit(found.variant) {
            Choice::Settled(refused_here(alloc))
        } else {
            Choice::Inside(found, member)
        },
        None => Choice::Settled(refused_here(alloc)),
    }
}

#[tactic(auto, using(crate::proofs::EntryTurns::one_alone, crate::proofs::EntryTurns::none_alone))]
fn choose_one<'a>(alloc: Global, variants: &'a Variants, members: &[Member<'a>]) -> Choice<'a>
    ensures { choice_view result ≡ one_choice (variants_in variants.now) (entries_view members.now) }
{
    if members.len() == 1 {
        let member = members[0];
        return choose_contents(alloc, member, variant_named(variants, member.name));
    }
    Choice::Settled(refused_here(alloc))
}

fn choose_external<'a>(
    alloc: Global,
    variants: &'a Variants,
    value: &'a Value,
) -> Result<Choice<'a>, TextFault>
    ensures answer { IfOk result (λ c. choice_view c ≡ external_choice (variants_in variants.now) (kept_view value.now)) }
    ensures memory { IfErr result (λ e. e ≡ TextFault.Memory) }
{
    match value {
        Value::String(name) => Ok(choose_unit(alloc, variant_named(variants, name))),
        Value::Object(object) => {
            let members = members_of(alloc, object)?;
            Ok(choose_one(alloc, variants, &members))
        }
        _ => Ok(Choice::Settled(refused_here(alloc))),
    }
}

fn choose_bare<'a>(
    alloc: Global,
    closed: bool,
    place: u32,
    members: &[Member<'a>],
) -> Result<Choice<'a>, TextFault>
    ensures answer { IfOk result (λ c. choice_view c ≡ bare_choice closed place (entries_view members.now)) }
    ensures memory { IfErr result (λ e. e ≡ TextFault.Memory) }
{
    if closed && !members.is_empty() {
        let read = refused_at(alloc, members[0].name)?;
        return Ok(Choice::Settled(read));
    }
    Ok(Choice::Settled(unit_at(alloc, place)))
}

fn choose_style<'a>(
    alloc: Global,
    closed: bool,
    found: Found<'a>,
    members: Vec<Member<'a>>,
) -> Result<Choice<'a>, TextFault>
    ensures answer { IfOk result (λ c. choice_view c ≡ style_choice closed found.entry.place (variant_view found.entry.variant.now) (variant_view found.entry.variant.now).style (entries_view members.entry.items)) }
    ensures memory { IfErr result (λ e. e ≡ TextFault.Memory) }
{
    match found.variant.style {
        Style::Struct => Ok(Choice::Beside(found.place, &found.variant.fields, members)),
        Style::Unit => {
            let choice = choose_bare(alloc, closed, found.place, &members)?;
            Ok(choice)
        }
        _ => Ok(Choice::Settled(refused_here(alloc))),
    }
}

fn internal_found<'a>(
    alloc: Global,
    closed: bool,
    tag: &str,
    members: &[Member<'a>],
    found: Option<Found<'a>>,
) -> Result<Choice<'a>, TextFault>
    ensures answer { IfOk result (λ c. choice_view c ≡ internal_found_in closed tag.now (entries_view members.now) (option_map found_view found.entry)) }
    ensures memory { IfErr result (λ e. e ≡ TextFault.Memory) }
{
    match found {
        Some(found) => {
            let others = members_without(alloc, members, tag)?;
            let choice = choose_style(alloc, closed, found, others)?;
            Ok(choice)
        }
        None => {
            let read = refused_at(alloc, tag)?;
            Ok(Choice::Settled(read))
        }
    }
}

fn choose_internal<'a>(
    alloc: Global,
    closed: bool,
    tag: &str,
    variants: &'a Variants,
    members: &[Member<'a>],
) -> Result<Choice<'a>, TextFault>
    ensures answer { let es = entries_view members.now in
        IfOk result (λ c. choice_view c ≡ internal_choice closed tag.now (variants_in variants.now) es (entry_of tag.now es)) }
    ensures memory { IfErr result (λ e. e ≡ TextFault.Memory) }
{
    match member_named(members, tag) {
        Some(member) => {
            let choice = internal_found(
                alloc,
                closed,
                tag,
                members,
                tagged(variants, member.value),
            )?;
            Ok(choice)
        }
        None => Ok(Choice::Settled(refused_here(alloc))),
    }
}

// The member of the contents, which a unit variant refuses and another needs.
fn choose_content<'a>(
    alloc: Global,
    found: Found<'a>,
    member: Option<Member<'a>>,
) -> Result<Choice<'a>, TextFault>
    ensures answer { IfOk result (λ c. choice_view c ≡ content_choice found.entry.place (variant_view found.entry.variant.now) (option_map entry_view member.entry)) }
    ensures memory { IfErr result (λ e. e ≡ TextFault.Memory) }
{
    match member {
        Some(member) => if is_unit(found.variant) {
            let read = refused_at(alloc, member.name)?;
            Ok(Choice::Settled(read))
        } else {
            Ok(Choice::Inside(found, member))
        },
        None => if is_unit(found.variant) {
            Ok(Choice::Settled(unit_at(alloc, found.place)))
        } else {
            Ok(Choice::Settled(refused_here(alloc)))
        },
    }
}

fn choose_closed<'a>(
    alloc: Global,
    closed: bool,
    others: &[Member<'a>],
    choice: Choice<'a>,
) -> Result<Choice<'a>, TextFault>
    ensures answer { IfOk result (λ c. choice_view c ≡ closed_choice closed (entries_view others.now) (choice_view choice.entry)) }
    ensures memory { IfErr result (λ e. e ≡ TextFault.Memory) }
{
    if closed && !others.is_empty() {
        let read = refused_at(alloc, others[0].name)?;
        return Ok(Choice::Settled(read));
    }
    Ok(choice)
}

fn adjacent_found<'a>(
    alloc: Global,
    closed: bool,
    tag: &str,
    content: &str,
    members: &[Member<'a>],
    found: Option<Found<'a>>,
) -> Result<Choice<'a>, TextFault>
    ensures answer { IfOk result (λ c. choice_view c ≡ adjacent_found_in closed tag.now content.now (entries_view members.now) (option_map found_view found.entry)) }
    ensures memory { IfErr result (λ e. e ≡ TextFault.Memory) }
{
    match found {
        Some(found) => {
            let beside = members_without(alloc, members, tag)?;
            let others = members_without(alloc, &beside, content)?;
            let choice = choose_content(alloc, found, member_named(members, content))?;
            let choice = choose_closed(alloc, closed, &others, choice)?;
            Ok(choice)
        }
        None => {
            let read = refused_at(alloc, tag)?;
            Ok(Choice::Settled(read))
        }
    }
}

fn choose_adjacent<'a>(
    alloc: Global,
    closed: bool,
    tag: &str,
    content: &str,
    variants: &'a Variants,
    members: &[Member<'a>],
) -> Result<Choice<'a>, TextFault>
    ensures answer { let es = entries_view members.now in
        IfOk result (λ c. choice_view c ≡ adjacent_choice closed tag.now content.now (variants_in variants.now) es (entry_of tag.now es)) }
    ensures memory { IfErr result (λ e. e ≡ TextFault.Memory) }
{
    match member_named(members, tag) {
        Some(member) => {
            let found = tagged(variants, member.value);
            let choice = adjacent_found(alloc, closed, tag, content, members, found)?;
            Ok(choice)
        }
        None => Ok(Choice::Settled(refused_here(alloc))),
    }
}

// The members, where the value is an object.
fn members_in(alloc: Global, value: &Value) -> Result<Vec<Member<'_>>, TextFault>
    ensures answer { IfOk result (λ v. entries_view v.items ≡ entries_in (kept_view value.now)) }
    ensures memory { IfErr result (λ e. e ≡ TextFault.Memory) }
{
    match value {
        Value::Object(object) => {
            let members = members_of(alloc, object)?;
            Ok(members)
        }
        _ => Ok(Vec::new(alloc)),
    }
}

/// What is left to read of the value as an enum. It fails where memory runs out.
pub fn choose<'a>(
    alloc: Global,
    closed: bool,
    tag: &'a Tag,
    variants: &'a Variants,
    value: &'a Value,
) -> Result<Choice<'a>, TextFault>
    ensures answer { IfOk result (λ c. choice_view c ≡ choice_in closed (tag_view tag.now) (variants_in variants.now) (kept_view value.now)) }
    ensures memory { IfErr result (λ e. e ≡ TextFault.Memory) }
{
    match tag {
        Tag::External => {
            let choice = choose_external(alloc, variants, value)?;
            Ok(choice)
        }
        Tag::Internal(tag) => {
            let members = members_in(alloc, value)?;
            let choice = choose_internal(alloc, closed, tag, variants, &members)?;
            Ok(choice)
        }
        Tag::Adjacent(tag, content) => {
            let members = members_in(alloc, value)?;
            let choice = choose_adjacent(alloc, closed, tag, content, variants, &members)?;
            Ok(choice)
        }
        Tag::Untagged => Ok(Choice::InTurn(variants.variants())),
    }
}
