//! Whether a type reads a value: one level after the other.
ghost use Rattle.std.specs.Prelude.{◌≡◌, ◌<◌, IfOk, length, map};
ghost use Rattle.conversion_table.specs.Conversions.{conversions_view};
ghost use Rattle.example_defs.specs.Enough.{no_texts};
ghost use Rattle.json_value.specs.View.{kept_view};
ghost use Rattle.model_defs.specs.Layer.{present_type as present_in, variant_content};
ghost use Rattle.model_defs.specs.Reads.{allowed as allowed_in, reads};
ghost use Rattle.reading_defs.specs.Laws.{is_taken};
ghost use Rattle.value_models.specs.ContainersView.{containers_in};
ghost use Rattle.value_models.specs.ContainerView.{body_view, container_view, tag_view, variants_in};
ghost use Rattle.value_models.specs.FieldView.{field_view, fields_view};
ghost use Rattle.value_models.specs.TypeView.{type_view};
ghost use Rattle.value_models.specs.VariantView.{fields_in, variant_view, variants_view};
ghost use Rattle.value_parts.specs.Entries.{demand_view, entries_view, entry_view};
ghost use Rattle.value_parts.specs.Seen.{one_view};
ghost use Rattle.value_parts.specs.Slots.{entries_at, entries_without_place};
ghost use Rattle.value_parts.specs.SortedView.{IsSorted, sorted_entries, sorted_names};
ghost use Rattle.value_taking.specs.At.{body_at, container_at, content_at, demanded, demanded_from, enum_at, field_at, fields_from, item_at, leaf_at, map_at, members_at, only_at, pair_at, pairs_at, part_at, rest_at, rule_at, struct_at, type_at as type_at_value, untagged_at};
ghost use Rattle.value_taking.specs.SettingView.{tables_view};

use crate::fields::{may_be_missing, present_type};
use crate::no_texts::NoTexts;
use crate::scalars::{is_null, takes_scalar};
use crate::setting::Setting;
use conversion_table::Conversions;
use schema_texts::TextFault;
use serde_json::Value;
use std::alloc::{AllocError, Global};
use value_models::{
    Body, Container, Containers, Field, Fields, Style, Tag, Typed, ValueType, Variant, Variants,
};
use value_parts::{
    Choice, Demand, MOST_LEVELS, Member, Outcome, Slot, Sorted, choose, fits, is_absent, leaf_of,
    length_of, members_of, name_value, rule_holds, sort, type_at,
};

/// Whether the type reads the value (serde.rs/field-attrs, serde.rs/enum-representations), where no default is read and no
/// text has a pattern or a format. It fails where memory runs out, and where more than a thousand levels of values and items
/// stand in one another.
pub fn takes(
    alloc: Global,
    containers: &Containers,
    conversions: &Conversions,
    ty: &ValueType,
    value: &Value,
) -> Result<bool, AllocError>
    ensures { IfOk result (λ b. b ≡ reads (containers_in containers.now) (conversions_view conversions.now) no_texts (type_view ty.now) (kept_view value.now)) }
{
    let setting = Setting {
        alloc,
        containers,
        conversions,
        levels: MOST_LEVELS,
    };
    match takes_part(&setting, ty, value) {
        Ok(taken) => Ok(taken),
        Err(_) => Err(AllocError),
    }
}

// How many items may be entered at one value.
fn allowed(setting: &Setting<'_>) -> usize
    ensures { result ≡ allowed_in (tables_view setting.now).models }
{
    setting.containers.count() + 1
}

fn is_taken(read: &Outcome<Typed>) -> bool
    ensures { result ≡ is_taken (one_view read.now) }
{
    match read {
        Outcome::Taken(_) => true,
        Outcome::Refused(_) | Outcome::Unsound => false,
    }
}

// Whether the value meets the rule of the item, where it has to.
fn meets_rule(
    setting: &Setting<'_>,
    container: &Container,
    value: &Value,
) -> Result<bool, TextFault>
    ensures { IfOk result (λ b. b ≡ rule_at (tables_view setting.now) (container_view container.now) (kept_view value.now)) }
{
    let mut texts = NoTexts;
    let holds = rule_holds(setting.conversions, &mut texts, container, value)?;
    Ok(holds)
}

// A part of a value: all items may be entered at it.
#[cycle(takes)]
fn takes_part(setting: &Setting<'_>, ty: &ValueType, value: &Value) -> Result<bool, TextFault>
    ensures { IfOk result (λ b. b ≡ part_at (tables_view setting.now) (type_view ty.now) (kept_view value.now)) }
{
    let left = allowed(setting);
    let taken = takes_type(setting, left, ty, value)?;
    Ok(taken)
}

// With `left` items that may still be entered at the value. Each way round leads through here, so that here the levels are
// counted.
#[cycle(takes)]
fn takes_type(
    setting: &Setting<'_>,
    left: usize,
    ty: &ValueType,
    value: &Value,
) -> Result<bool, TextFault>
    ensures { IfOk result (λ b. b ≡ type_at_value (tables_view setting.now) left (type_view ty.now) (kept_view value.now)) }
{
    if is_absent(ty, value) {
        return Ok(true);
    }
    if setting.levels == 0 {
        return Err(TextFault::Memory);
    }
    let inside = Setting {
        alloc: setting.alloc,
        containers: setting.containers,
        conversions: setting.conversions,
        levels: setting.levels - 1,
    };
    let taken = takes_leaf(&inside, left, leaf_of(ty), value)?;
    Ok(taken)
}

// As a type that is no option and no box.
#[cycle(takes)]
fn takes_leaf(
    setting: &Setting<'_>,
    left: usize,
    ty: &ValueType,
    value: &Value,
) -> Result<bool, TextFault>
    ensures { IfOk result (λ b. b ≡ leaf_at (tables_view setting.now) left (type_view ty.now) (kept_view value.now)) }
{
    match ty {
        ValueType::List(inner) => {
            let taken = takes_list(setting, Demand::Each(inner), None, value)?;
            Ok(taken)
        }
        ValueType::Set(inner) => {
            let taken = takes_list(setting, Demand::Each(inner), None, value)?;
            Ok(taken)
        }
        ValueType::Map(key, held) => {
            let taken = takes_map(setting, key, held, value)?;
            Ok(taken)
        }
        ValueType::Tuple(types) => {
            let demand = Demand::Types(types);
            let taken = takes_list(setting, demand, length_of(demand), value)?;
            Ok(taken)
        }
        ValueType::Array(inner, count) => {
            let taken = takes_list(setting, Demand::Each(inner), Some(*count), value)?;
            Ok(taken)
        }
        ValueType::Item(name) => {
            let taken = takes_item(setting, left, name, value)?;
            Ok(taken)
        }
        _ => Ok(takes_scalar(ty, value)),
    }
}

#[cycle(takes)]
#[tactic(auto, using(crate::proofs::Lists::not_fitting))]
fn takes_list(
    setting: &Setting<'_>,
    demand: Demand<'_>,
    wanted: Option<u64>,
    value: &Value,
) -> Result<bool, TextFault>
    ensures { IfOk result (λ b. b ≡ demanded (tables_view setting.now) (demand_view demand.entry) wanted (kept_view value.now)) }
{
    match value {
        Value::Array(values) => if fits(wanted, values.len()) {
            let taken = takes_items(setting, demand, values)?;
            Ok(taken)
        } else {
            Ok(false)
        },
        _ => Ok(false),
    }
}

#[cycle(takes)]
fn takes_items(
    setting: &Setting<'_>,
    demand: Demand<'_>,
    values: &[Value],
) -> Result<bool, TextFault>
    ensures { IfOk result (λ b. b ≡ demanded_from (tables_view setting.now) (demand_view demand.entry) 0 (map kept_view values.now)) }
{
    for (place, value) in values.iter().enumerate() {
        let Some(ty) = type_at(demand, place) else {
            return Ok(true);
        };
        if !takes_part(setting, ty, value)? {
            return Ok(false);
        }
    }
    Ok(true)
}

#[cycle(takes)]
fn takes_map(
    setting: &Setting<'_>,
    key: &ValueType,
    held: &ValueType,
    value: &Value,
) -> Result<bool, TextFault>
    ensures { IfOk result (λ b. b ≡ map_at (tables_view setting.now) (type_view key.now) (type_view held.now) (kept_view value.now)) }
{
    match value {
        Value::Object(object) => {
            let members = members_of(setting.alloc, object)?;
            let taken = takes_pairs(setting, key, held, &members)?;
            Ok(taken)
        }
        _ => Ok(false),
    }
}

#[cycle(takes)]
fn takes_pairs(
    setting: &Setting<'_>,
    key: &ValueType,
    held: &ValueType,
    members: &[Member<'_>],
) -> Result<bool, TextFault>
    ensures { IfOk result (λ b. b ≡ pairs_at (tables_view setting.now) (type_view key.now) (type_view held.now) (entries_view members.now)) }
{
    for at in 0..members.len() {
        if !takes_pair(setting, key, held, members[at])? {
            return Ok(false);
        }
    }
    Ok(true)
}

// The name, as a text, and then the value.
#[cycle(takes)]
fn takes_pair(
    setting: &Setting<'_>,
    key: &ValueType,
    held: &ValueType,
    member: Member<'_>,
) -> Result<bool, TextFault>
    ensures { IfOk result (λ b. b ≡ pair_at (tables_view setting.now) (type_view key.now) (type_view held.now) (entry_view member.entry)) }
{
    let name = name_value(setting.alloc, member.name)?;
    if !takes_part(setting, key, &name)? {
        return Ok(false);
    }
    let taken = takes_part(setting, held, member.value)?;
    Ok(taken)
}

#[cycle(takes)]
fn takes_item(
    setting: &Setting<'_>,
    left: usize,
    name: &str,
    value: &Value,
) -> Result<bool, TextFault>
    ensures { IfOk result (λ b. b ≡ item_at (tables_view setting.now) left name.now (kept_view value.now)) }
{
    if left == 0 {
        return Ok(false);
    }
    match setting.containers.named(name) {
        Some(container) => {
            let taken = takes_container(setting, left - 1, container, value)?;
            Ok(taken)
        }
        None => Ok(false),
    }
}

// The body, and then the rule.
#[cycle(takes)]
fn takes_container(
    setting: &Setting<'_>,
    left: usize,
    container: &Container,
    value: &Value,
) -> Result<bool, TextFault>
    ensures { IfOk result (λ b. b ≡ container_at (tables_view setting.now) left (container_view container.now) (kept_view value.now)) }
{
    if !takes_body(setting, left, container.closed, &container.body, value)? {
        return Ok(false);
    }
    let holds = meets_rule(setting, container, value)?;
    Ok(holds)
}

#[cycle(takes)]
#[tactic(auto, using(crate::proofs::Chosen::newtype_there))]
fn takes_body(
    setting: &Setting<'_>,
    left: usize,
    closed: bool,
    body: &Body,
    value: &Value,
) -> Result<bool, TextFault>
    ensures { IfOk result (λ b. b ≡ body_at (tables_view setting.now) left closed (body_view body.now) (kept_view value.now)) }
{
    match body {
        Body::Struct(Style::Struct, fields) => {
            let taken = takes_struct(setting, closed, fields, value)?;
            Ok(taken)
        }
        Body::Struct(Style::Newtype, fields) => {
            let taken = takes_only(setting, left, fields.fields(), value)?;
            Ok(taken)
        }
        Body::Struct(_, _) => Ok(false),
        Body::Enum(tag, variants) => {
            let taken = takes_enum(setting, left, closed, tag, variants, value)?;
            Ok(taken)
        }
    }
}

// As the type of one unnamed field.
#[cycle(takes)]
fn takes_only(
    setting: &Setting<'_>,
    left: usize,
    fields: &[Field],
    value: &Value,
) -> Result<bool, TextFault>
    ensures { IfOk result (λ b. b ≡ only_at (tables_view setting.now) left (fields_view fields.now) (kept_view value.now)) }
{
    match fields {
        [field] => {
            let taken = takes_type(setting, left, &field.field_type, value)?;
            Ok(taken)
        }
        _ => Ok(false),
    }
}

#[cycle(takes)]
fn takes_enum(
    setting: &Setting<'_>,
    left: usize,
    closed: bool,
    tag: &Tag,
    variants: &Variants,
    value: &Value,
) -> Result<bool, TextFault>
    ensures { IfOk result (λ b. b ≡ enum_at (tables_view setting.now) left closed (tag_view tag.now) (variants_in variants.now) (kept_view value.now)) }
{
    let choice = choose(setting.alloc, closed, tag, variants, value)?;
    match choice {
        Choice::Settled(read) => Ok(is_taken(&read)),
        Choice::Inside(found, member) => {
            let within = allowed(setting);
            let taken = takes_content(setting, within, closed, found.variant, member.value)?;
            Ok(taken)
        }
        Choice::Beside(_, fields, members) => {
            let taken = takes_members(setting, closed, fields, &members)?;
            Ok(taken)
        }
        Choice::InTurn(each) => {
            let taken = takes_untagged(setting, left, closed, each, value)?;
            Ok(taken)
        }
    }
}

// As the contents of a variant.
#[cycle(takes)]
fn takes_content(
    setting: &Setting<'_>,
    left: usize,
    closed: bool,
    variant: &Variant,
    value: &Value,
) -> Result<bool, TextFault>
    ensures { IfOk result (λ b. b ≡ content_at (tables_view setting.now) left (variant_content closed (variant_view variant.now)) (kept_view value.now)) }
{
    match variant.style {
        Style::Struct => {
            let taken = takes_struct(setting, closed, &variant.fields, value)?;
            Ok(taken)
        }
        Style::Tuple => {
            let demand = Demand::Fields(variant.fields.fields());
            let taken = takes_list(setting, demand, length_of(demand), value)?;
            Ok(taken)
        }
        Style::Newtype => {
            let taken = takes_only(setting, left, variant.fields.fields(), value)?;
            Ok(taken)
        }
        Style::Unit => Ok(is_null(value)),
    }
}

// As one of the variants.
#[cycle(takes)]
fn takes_untagged(
    setting: &Setting<'_>,
    left: usize,
    closed: bool,
    variants: &[Variant],
    value: &Value,
) -> Result<bool, TextFault>
    ensures { IfOk result (λ b. b ≡ untagged_at (tables_view setting.now) left closed (variants_view variants.now) (kept_view value.now)) }
{
    for variant in variants {
        if takes_content(setting, left, closed, variant, value)? {
            return Ok(true);
        }
    }
    Ok(false)
}

#[cycle(takes)]
fn takes_struct(
    setting: &Setting<'_>,
    closed: bool,
    fields: &Fields,
    value: &Value,
) -> Result<bool, TextFault>
    ensures { IfOk result (λ b. b ≡ struct_at (tables_view setting.now) closed (fields_in fields.now) (kept_view value.now)) }
{
    match value {
        Value::Object(object) => {
            let members = members_of(setting.alloc, object)?;
            let taken = takes_members(setting, closed, fields, &members)?;
            Ok(taken)
        }
        _ => Ok(false),
    }
}

#[cycle(takes)]
fn takes_members(
    setting: &Setting<'_>,
    closed: bool,
    fields: &Fields,
    members: &[Member<'_>],
) -> Result<bool, TextFault>
    ensures { IfOk result (λ b. b ≡ members_at (tables_view setting.now) closed (fields_in fields.now) (entries_view members.now)) }
{
    let sorted = sort(setting.alloc, &*fields, &*members)?;
    match sorted.first_unknown(closed) {
        Some(_) => Ok(false),
        None => {
            let taken = takes_fields(setting, &sorted)?;
            Ok(taken)
        }
    }
}

// The fields in order, a rest among them.
#[cycle(takes)]
fn takes_fields(setting: &Setting<'_>, sorted: &Sorted<'_>) -> Result<bool, TextFault>
    requires { IsSorted sorted.now }
    ensures { IfOk result (λ b. b ≡ fields_from (tables_view setting.now) (λ i. entries_at i (sorted_names sorted.now) (sorted_entries sorted.now)) (entries_without_place (sorted_names sorted.now) (sorted_entries sorted.now)) 0 (fields_in sorted.now.fields.now)) }
{
    for (place, field) in sorted.fields().iter().enumerate() {
        if !takes_field(setting, sorted, place, field)? {
            return Ok(false);
        }
    }
    Ok(true)
}

#[cycle(takes)]
fn takes_field(
    setting: &Setting<'_>,
    sorted: &Sorted<'_>,
    place: usize,
    field: &Field,
) -> Result<bool, TextFault>
    requires place { place < length (fields_in sorted.now.fields.now) }
    requires sorted { IsSorted sorted.now }
    ensures { IfOk result (λ b. b ≡ field_at (tables_view setting.now) (field_view field.now) (entries_without_place (sorted_names sorted.now) (sorted_entries sorted.now)) (entries_at place (sorted_names sorted.now) (sorted_entries sorted.now))) }
{
    if field.is_rest {
        let taken = takes_rest(setting, &field.field_type, sorted.unnamed())?;
        return Ok(taken);
    }
    match sorted.slot(place) {
        Slot::Empty => Ok(may_be_missing(setting.containers, field)),
        Slot::One(member) => {
            let taken = takes_present(setting, field, member.value)?;
            Ok(taken)
        }
        Slot::Two(_, _) => Ok(false),
    }
}

// A rest is a map.
#[cycle(takes)]
fn takes_rest(
    setting: &Setting<'_>,
    ty: &ValueType,
    members: &[Member<'_>],
) -> Result<bool, TextFault>
    ensures { IfOk result (λ b. b ≡ rest_at (tables_view setting.now) (type_view ty.now) (entries_view members.now)) }
{
    match ty {
        ValueType::Map(key, held) => {
            let taken = takes_pairs(setting, key, held, members)?;
            Ok(taken)
        }
        _ => Ok(false),
    }
}

// As the helper says.
#[cycle(takes)]
fn takes_present(setting: &Setting<'_>, field: &Field, value: &Value) -> Result<bool, TextFault>
    ensures { IfOk result (λ b. b ≡ part_at (tables_view setting.now) (present_in (field_view field.now)) (kept_view value.now)) }
{
    match present_type(field) {
        Some(ty) => {
            let taken = takes_part(setting, ty, value)?;
            Ok(taken)
        }
        None => Ok(false),
    }
}
