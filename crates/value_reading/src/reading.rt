//! Values read as types: one level after the other.
ghost use Rattle.std.specs.Prelude.{◌≡◌, ◌≤◌, ◌<◌, IfOk, IsErrOf, Some, length, map};
ghost use Rattle.schema_defs.specs.Faults.{Rises};
ghost use Rattle.model_defs.specs.Layer.{variant_content};
ghost use Rattle.reading_defs.specs.Reading.{reading};
ghost use Rattle.conversion_table.specs.Conversions.{conversions_view};
ghost use Rattle.json_value.specs.View.{kept_view};
ghost use Rattle.value_models.specs.ContainersView.{containers_in};
ghost use Rattle.value_models.specs.ContainerView.{body_view, container_view, tag_view, variants_in};
ghost use Rattle.value_models.specs.FieldView.{field_view, fields_view, helper_view};
ghost use Rattle.value_models.specs.TypeView.{type_view};
ghost use Rattle.value_models.specs.VariantView.{fields_in, variant_view, variants_view};
ghost use Rattle.value_parts.specs.At.{body_at, container_at, content_at, default_of, demanded, demanded_from, enum_at, item_at, leaf_at, map_at, members_at, pairs_at, rest_at, struct_at, type_at as type_at_value, untagged_at};
ghost use Rattle.value_parts.specs.Choice.{inside_at};
ghost use Rattle.value_parts.specs.Entries.{demand_view, entries_view, entry_view};
ghost use Rattle.value_parts.specs.Seen.{one_view, pair_view, pairs_read_view, several_view};
ghost use Rattle.value_parts.specs.SettingView.{setting_view};
ghost use Rattle.value_parts.specs.Slots.{entries_at, entries_without_place, field_at, fields_from, missing_at, present_at};
ghost use Rattle.value_parts.specs.SortedView.{IsSorted, sorted_entries, sorted_names};
ghost use Rattle.value_reading.specs.Steps.{default_stated, helped_at, inner_at, newtype_at, only_at, pair_at, part_at, place_at, variant_at};

use crate::apart::as_set;
use conversion_table::Conversions;
use schema_texts::{TextFault, Texts};
use serde_json::Value;
use std::alloc::Global;
use value_models::{
    Body, Container, Containers, Field, FieldDefault, Fields, Helper, Style, Tag, Typed, ValueType,
    Variant, Variants,
};
use value_parts::{
    Choice, Demand, Found, MOST_LEVELS, Member, Outcome, Setting, Slot, Sorted, as_list, as_map,
    as_newtype, as_single, as_some, as_struct, as_unit, as_variant, as_whole, choose,
    count_defaults, empty_value, fits, if_sound, is_absent, is_unit, kept_if, leaf_of, length_of,
    members_of, name_value, paired, push_pair, push_typed, read_scalar, read_unit, refused_at,
    refused_here, refused_pair_at, refused_pairs, refused_several, refused_several_at, rule_holds,
    short_place, sort, type_at, under_name, under_place, with_entered, without_default,
};

/// What reading the value as the type gives (serde.rs/field-attrs, serde.rs/enum-representations): the typed value, or the
/// place where reading stops. Members are found by the tables of names. It fails where memory runs out, or where the judge
/// of texts failed, whose count of failures then rose.
#[tactic(auto, using(crate::proofs::Levels::reading_here))]
pub fn read<T: Texts>(
    alloc: Global,
    containers: &Containers,
    conversions: &Conversions,
    texts: &mut T,
    ty: &ValueType,
    value: &Value,
) -> Result<Outcome<Typed>, TextFault>
    ensures answer { IfOk result (λ o. one_view o ≡ reading (containers_in containers.now) (conversions_view conversions.now) (T.relations texts.old) (type_view ty.now) (kept_view value.now)) }
    ensures keeps { T.relations texts.new ≡ T.relations texts.old }
    ensures failed { IsErrOf result TextFault.Failed → Rises (T.faults texts.old) (T.faults texts.new) }
    ensures counts { T.faults texts.old ≤ T.faults texts.new }
{
    let entered = Vec::new(alloc);
    let setting = Setting {
        alloc,
        containers,
        conversions,
        entered: &entered,
        more: count_defaults(conversions),
        levels: MOST_LEVELS,
    };
    let read = read_part(&setting, texts, ty, value)?;
    Ok(read)
}

// A part of a value: all items may be entered at it.
#[cycle(read)]
#[tactic(auto, using(crate::proofs::Levels::part_here))]
fn read_part<T: Texts>(
    setting: &Setting<'_>,
    texts: &mut T,
    ty: &ValueType,
    value: &Value,
) -> Result<Outcome<Typed>, TextFault>
    ensures answer { IfOk result (λ o. one_view o ≡ part_at (setting_view setting.now (T.relations texts.old)) (type_view ty.now) (kept_view value.now)) }
    ensures keeps { T.relations texts.new ≡ T.relations texts.old }
    ensures failed { IsErrOf result TextFault.Failed → Rises (T.faults texts.old) (T.faults texts.new) }
    ensures counts { T.faults texts.old ≤ T.faults texts.new }
{
    let left = setting.allowed();
    let read = read_type(setting, texts, left, ty, value)?;
    Ok(read)
}

// With `left` items that may still be entered at the value. Each way round leads through here, so that here the levels are counted.
#[cycle(read)]
#[tactic(auto, using(crate::proofs::Levels::absent_level, crate::proofs::Levels::present_level))]
fn read_type<T: Texts>(
    setting: &Setting<'_>,
    texts: &mut T,
    left: usize,
    ty: &ValueType,
    value: &Value,
) -> Result<Outcome<Typed>, TextFault>
    ensures answer { IfOk result (λ o. one_view o ≡ type_at_value (setting_view setting.now (T.relations texts.old)) left (type_view ty.now) (kept_view value.now)) }
    ensures keeps { T.relations texts.new ≡ T.relations texts.old }
    ensures failed { IsErrOf result TextFault.Failed → Rises (T.faults texts.old) (T.faults texts.new) }
    ensures counts { T.faults texts.old ≤ T.faults texts.new }
{
    if is_absent(ty, value) {
        return Ok(Outcome::Taken(Typed::None));
    }
    if setting.levels == 0 {
        return Err(TextFault::Memory);
    }
    let inside = Setting {
        alloc: setting.alloc,
        containers: setting.containers,
        conversions: setting.conversions,
        entered: setting.entered,
        more: setting.more,
        levels: setting.levels - 1,
    };
    let read = read_leaf(&inside, texts, left, leaf_of(ty), value)?;
    let whole = as_whole(setting.alloc, ty, read)?;
    Ok(whole)
}

// As a type that is no option and no box.
#[cycle(read)]
#[tactic(auto, using(crate::proofs::Levels::tuple_level))]
fn read_leaf<T: Texts>(
    setting: &Setting<'_>,
    texts: &mut T,
    left: usize,
    ty: &ValueType,
    value: &Value,
) -> Result<Outcome<Typed>, TextFault>
    ensures answer { IfOk result (λ o. one_view o ≡ leaf_at (setting_view setting.now (T.relations texts.old)) left (type_view ty.now) (kept_view value.now)) }
    ensures keeps { T.relations texts.new ≡ T.relations texts.old }
    ensures failed { IsErrOf result TextFault.Failed → Rises (T.faults texts.old) (T.faults texts.new) }
    ensures counts { T.faults texts.old ≤ T.faults texts.new }
{
    match ty {
        ValueType::List(inner) => {
            let read = read_list(setting, texts, Demand::Each(inner), None, value)?;
            Ok(as_list(read))
        }
        ValueType::Set(inner) => {
            let read = read_list(setting, texts, Demand::Each(inner), None, value)?;
            let set = as_set(setting.alloc, setting.containers, inner, read)?;
            Ok(set)
        }
        ValueType::Map(key, held) => {
            let read = read_map(setting, texts, key, held, value)?;
            Ok(as_map(read))
        }
        ValueType::Tuple(types) => {
            let demand = Demand::Types(types);
            let read = read_list(setting, texts, demand, length_of(demand), value)?;
            Ok(as_list(read))
        }
        ValueType::Array(inner, count) => {
            let read = read_list(setting, texts, Demand::Each(inner), Some(*count), value)?;
            Ok(as_list(read))
        }
        ValueType::Item(name) => {
            let read = read_item(setting, texts, left, name, value)?;
            Ok(read)
        }
        _ => {
            let read = read_scalar(setting.alloc, texts, ty, value)?;
            Ok(read)
        }
    }
}

#[cycle(read)]
#[tactic(auto, using(crate::proofs::ListLevels::fitting, crate::proofs::ListLevels::not_fitting))]
fn read_list<T: Texts>(
    setting: &Setting<'_>,
    texts: &mut T,
    demand: Demand<'_>,
    wanted: Option<u64>,
    value: &Value,
) -> Result<Outcome<Vec<Typed>>, TextFault>
    ensures answer { IfOk result (λ o. several_view o ≡ demanded (setting_view setting.now (T.relations texts.old)) (demand_view demand.entry) wanted (kept_view value.now)) }
    ensures keeps { T.relations texts.new ≡ T.relations texts.old }
    ensures failed { IsErrOf result TextFault.Failed → Rises (T.faults texts.old) (T.faults texts.new) }
    ensures counts { T.faults texts.old ≤ T.faults texts.new }
{
    match value {
        Value::Array(values) => if fits(wanted, values.len()) {
            let read = read_items(setting, texts, demand, values)?;
            Ok(read)
        } else {
            Ok(refused_several(setting.alloc))
        },
        _ => Ok(refused_several(setting.alloc)),
    }
}

#[cycle(read)]
fn read_items<T: Texts>(
    setting: &Setting<'_>,
    texts: &mut T,
    demand: Demand<'_>,
    values: &[Value],
) -> Result<Outcome<Vec<Typed>>, TextFault>
    ensures answer { IfOk result (λ o. several_view o ≡ demanded_from (setting_view setting.now (T.relations texts.old)) (demand_view demand.entry) 0 (map kept_view values.now)) }
    ensures keeps { T.relations texts.new ≡ T.relations texts.old }
    ensures failed { IsErrOf result TextFault.Failed → Rises (T.faults texts.old) (T.faults texts.new) }
    ensures counts { T.faults texts.old ≤ T.faults texts.new }
{
    let mut taken = Vec::new(setting.alloc);
    for (place, value) in values.iter().enumerate() {
        let Some(ty) = type_at(demand, place) else {
            return Ok(Outcome::Taken(taken));
        };
        let read = read_at_place(setting, texts, place, ty, value)?;
        match read {
            Outcome::Taken(typed) => push_typed(&mut taken, typed)?,
            Outcome::Refused(path) => return Ok(Outcome::Refused(path)),
            Outcome::Unsound => return Ok(Outcome::Unsound),
        }
    }
    Ok(Outcome::Taken(taken))
}

#[cycle(read)]
fn read_at_place<T: Texts>(
    setting: &Setting<'_>,
    texts: &mut T,
    place: usize,
    ty: &ValueType,
    value: &Value,
) -> Result<Outcome<Typed>, TextFault>
    ensures answer { IfOk result (λ o. one_view o ≡ place_at (setting_view setting.now (T.relations texts.old)) place (type_view ty.now) (kept_view value.now)) }
    ensures keeps { T.relations texts.new ≡ T.relations texts.old }
    ensures failed { IsErrOf result TextFault.Failed → Rises (T.faults texts.old) (T.faults texts.new) }
    ensures counts { T.faults texts.old ≤ T.faults texts.new }
{
    let read = read_part(setting, texts, ty, value)?;
    let placed = under_place(setting.alloc, place, read)?;
    Ok(placed)
}

#[cycle(read)]
#[tactic(auto, using(crate::proofs::ListLevels::object_level))]
fn read_map<T: Texts>(
    setting: &Setting<'_>,
    texts: &mut T,
    key: &ValueType,
    held: &ValueType,
    value: &Value,
) -> Result<Outcome<Vec<(Typed, Typed)>>, TextFault>
    ensures answer { IfOk result (λ o. pairs_read_view o ≡ map_at (setting_view setting.now (T.relations texts.old)) (type_view key.now) (type_view held.now) (kept_view value.now)) }
    ensures keeps { T.relations texts.new ≡ T.relations texts.old }
    ensures failed { IsErrOf result TextFault.Failed → Rises (T.faults texts.old) (T.faults texts.new) }
    ensures counts { T.faults texts.old ≤ T.faults texts.new }
{
    match value {
        Value::Object(object) => {
            let members = members_of(setting.alloc, object)?;
            let read = read_pairs(setting, texts, key, held, &members)?;
            Ok(read)
        }
        _ => Ok(refused_pairs(setting.alloc)),
    }
}

#[cycle(read)]
fn read_pairs<T: Texts>(
    setting: &Setting<'_>,
    texts: &mut T,
    key: &ValueType,
    held: &ValueType,
    members: &[Member<'_>],
) -> Result<Outcome<Vec<(Typed, Typed)>>, TextFault>
    ensures answer { IfOk result (λ o. pairs_read_view o ≡ pairs_at (setting_view setting.now (T.relations texts.old)) (type_view key.now) (type_view held.now) (entries_view members.now)) }
    ensures keeps { T.relations texts.new ≡ T.relations texts.old }
    ensures failed { IsErrOf result TextFault.Failed → Rises (T.faults texts.old) (T.faults texts.new) }
    ensures counts { T.faults texts.old ≤ T.faults texts.new }
{
    let mut taken = Vec::new(setting.alloc);
    for at in 0..members.len() {
        let member = members[at];
        let read = read_pair(setting, texts, key, held, member)?;
        match read {
            Outcome::Taken(pair) => push_pair(&mut taken, pair)?,
            Outcome::Refused(path) => return Ok(Outcome::Refused(path)),
            Outcome::Unsound => return Ok(Outcome::Unsound),
        }
    }
    Ok(Outcome::Taken(taken))
}

// The name, as a text, and then the value.
#[cycle(read)]
#[tactic(auto, using(crate::proofs::LoopSteps::pair_taken, crate::proofs::LoopSteps::pair_stopped, crate::proofs::LoopSteps::pair_unsound))]
fn read_pair<T: Texts>(
    setting: &Setting<'_>,
    texts: &mut T,
    key: &ValueType,
    held: &ValueType,
    member: Member<'_>,
) -> Result<Outcome<(Typed, Typed)>, TextFault>
    ensures answer { IfOk result (λ o. pair_view o ≡ pair_at (setting_view setting.now (T.relations texts.old)) (type_view key.now) (type_view held.now) (entry_view member.entry)) }
    ensures keeps { T.relations texts.new ≡ T.relations texts.old }
    ensures failed { IsErrOf result TextFault.Failed → Rises (T.faults texts.old) (T.faults texts.new) }
    ensures counts { T.faults texts.old ≤ T.faults texts.new }
{
    let name = name_value(setting.alloc, member.name)?;
    let read = read_part(setting, texts, key, &name)?;
    match read {
        Outcome::Taken(first) => {
            let second = read_part(setting, texts, held, member.value)?;
            let pair = paired(setting.alloc, member.name, first, second)?;
            Ok(pair)
        }
        Outcome::Refused(_) => {
            let refused = refused_pair_at(setting.alloc, member.name)?;
            Ok(refused)
        }
        Outcome::Unsound => Ok(Outcome::Unsound),
    }
}

#[cycle(read)]
#[tactic(auto, using(crate::proofs::Levels::item_there, crate::proofs::Levels::item_nowhere, crate::proofs::Levels::items_spent))]
fn read_item<T: Texts>(
    setting: &Setting<'_>,
    texts: &mut T,
    left: usize,
    name: &str,
    value: &Value,
) -> Result<Outcome<Typed>, TextFault>
    ensures answer { IfOk result (λ o. one_view o ≡ item_at (setting_view setting.now (T.relations texts.old)) left name.now (kept_view value.now)) }
    ensures keeps { T.relations texts.new ≡ T.relations texts.old }
    ensures failed { IsErrOf result TextFault.Failed → Rises (T.faults texts.old) (T.faults texts.new) }
    ensures counts { T.faults texts.old ≤ T.faults texts.new }
{
    if left == 0 {
        return Ok(refused_here(setting.alloc));
    }
    match setting.containers.named(name) {
        Some(container) => {
            let read = read_container(setting, texts, left - 1, container, value)?;
            Ok(read)
        }
        None => Ok(refused_here(setting.alloc)),
    }
}

// The body, and then the rule: it is asked also where the body is refused, which changes no answer.
#[cycle(read)]
fn read_container<T: Texts>(
    setting: &Setting<'_>,
    texts: &mut T,
    left: usize,
    container: &Container,
    value: &Value,
) -> Result<Outcome<Typed>, TextFault>
    ensures answer { IfOk result (λ o. one_view o ≡ container_at (setting_view setting.now (T.relations texts.old)) left (Some (container_view container.now)) (kept_view value.now)) }
    ensures keeps { T.relations texts.new ≡ T.relations texts.old }
    ensures failed { IsErrOf result TextFault.Failed → Rises (T.faults texts.old) (T.faults texts.new) }
    ensures counts { T.faults texts.old ≤ T.faults texts.new }
{
    let read = read_body(
        setting,
        texts,
        left,
        container.closed,
        &container.body,
        value,
    )?;
    let holds = rule_holds(setting.conversions, texts, container, value)?;
    Ok(kept_if(setting.alloc, holds, read))
}

#[cycle(read)]
#[tactic(auto, using(crate::proofs::Levels::newtype_there))]
fn read_body<T: Texts>(
    setting: &Setting<'_>,
    texts: &mut T,
    left: usize,
    closed: bool,
    body: &Body,
    value: &Value,
) -> Result<Outcome<Typed>, TextFault>
    ensures answer { IfOk result (λ o. one_view o ≡ body_at (setting_view setting.now (T.relations texts.old)) left closed (body_view body.now) (kept_view value.now)) }
    ensures keeps { T.relations texts.new ≡ T.relations texts.old }
    ensures failed { IsErrOf result TextFault.Failed → Rises (T.faults texts.old) (T.faults texts.new) }
    ensures counts { T.faults texts.old ≤ T.faults texts.new }
{
    match body {
        Body::Struct(Style::Struct, fields) => {
            let read = read_struct(setting, texts, closed, fields, value)?;
            Ok(as_struct(read))
        }
        Body::Struct(Style::Newtype, fields) => {
            let read = read_newtype(setting, texts, left, fields.fields(), value)?;
            Ok(read)
        }
        Body::Struct(_, _) => Ok(refused_here(setting.alloc)),
        Body::Enum(tag, variants) => {
            let read = read_enum(setting, texts, left, closed, tag, variants, value)?;
            Ok(read)
        }
    }
}

#[cycle(read)]
fn read_newtype<T: Texts>(
    setting: &Setting<'_>,
    texts: &mut T,
    left: usize,
    fields: &[Field],
    value: &Value,
) -> Result<Outcome<Typed>, TextFault>
    ensures answer { IfOk result (λ o. one_view o ≡ newtype_at (setting_view setting.now (T.relations texts.old)) left (fields_view fields.now) (kept_view value.now)) }
    ensures keeps { T.relations texts.new ≡ T.relations texts.old }
    ensures failed { IsErrOf result TextFault.Failed → Rises (T.faults texts.old) (T.faults texts.new) }
    ensures counts { T.faults texts.old ≤ T.faults texts.new }
{
    match fields {
        [field] => {
            let read = read_type(setting, texts, left, &field.field_type, value)?;
            let held = as_newtype(setting.alloc, read)?;
            Ok(held)
        }
        _ => Ok(refused_here(setting.alloc)),
    }
}

#[cycle(read)]
#[tactic(auto, using(crate::proofs::Contents::settled_enum, crate::proofs::Contents::inside_enum, crate::proofs::Contents::beside_enum, crate::proofs::Contents::turn_enum))]
fn read_enum<T: Texts>(
    setting: &Setting<'_>,
    texts: &mut T,
    left: usize,
    closed: bool,
    tag: &Tag,
    variants: &Variants,
    value: &Value,
) -> Result<Outcome<Typed>, TextFault>
    ensures answer { IfOk result (λ o. one_view o ≡ enum_at (setting_view setting.now (T.relations texts.old)) left closed (tag_view tag.now) (variants_in variants.now) (kept_view value.now)) }
    ensures keeps { T.relations texts.new ≡ T.relations texts.old }
    ensures failed { IsErrOf result TextFault.Failed → Rises (T.faults texts.old) (T.faults texts.new) }
    ensures counts { T.faults texts.old ≤ T.faults texts.new }
{
    let choice = choose(setting.alloc, closed, tag, variants, value)?;
    match choice {
        Choice::Settled(read) => Ok(read),
        Choice::Inside(found, member) => {
            let read = read_inside(setting, texts, closed, found, member)?;
            Ok(read)
        }
        Choice::Beside(place, fields, members) => {
            let read = read_members(setting, texts, closed, fields, &members)?;
            Ok(as_variant(place, read))
        }
        Choice::InTurn(each) => {
            let read = read_untagged(setting, texts, left, closed, each, value)?;
            Ok(read)
        }
    }
}

// The contents of a variant, under their name.
#[cycle(read)]
#[tactic(auto, using(crate::proofs::Contents::inside_here))]
fn read_inside<T: Texts>(
    setting: &Setting<'_>,
    texts: &mut T,
    closed: bool,
    found: Found<'_>,
    member: Member<'_>,
) -> Result<Outcome<Typed>, TextFault>
    ensures answer { IfOk result (λ o. one_view o ≡ inside_at (setting_view setting.now (T.relations texts.old)) closed found.entry.place (variant_view found.entry.variant.now) (entry_view member.entry)) }
    ensures keeps { T.relations texts.new ≡ T.relations texts.old }
    ensures failed { IsErrOf result TextFault.Failed → Rises (T.faults texts.old) (T.faults texts.new) }
    ensures counts { T.faults texts.old ≤ T.faults texts.new }
{
    let left = setting.allowed();
    let read = read_content(setting, texts, left, closed, found.variant, member.value)?;
    let named = under_name(setting.alloc, member.name, as_variant(found.place, read))?;
    Ok(named)
}

#[cycle(read)]
#[tactic(auto, using(crate::proofs::Contents::struct_content, crate::proofs::Contents::tuple_content, crate::proofs::Contents::only_content, crate::proofs::Contents::unit_content))]
fn read_content<T: Texts>(
    setting: &Setting<'_>,
    texts: &mut T,
    left: usize,
    closed: bool,
    variant: &Variant,
    value: &Value,
) -> Result<Outcome<Vec<Typed>>, TextFault>
    ensures answer { IfOk result (λ o. several_view o ≡ content_at (setting_view setting.now (T.relations texts.old)) left (variant_content closed (variant_view variant.now)) (kept_view value.now)) }
    ensures keeps { T.relations texts.new ≡ T.relations texts.old }
    ensures failed { IsErrOf result TextFault.Failed → Rises (T.faults texts.old) (T.faults texts.new) }
    ensures counts { T.faults texts.old ≤ T.faults texts.new }
{
    match variant.style {
        Style::Struct => {
            let read = read_struct(setting, texts, closed, &variant.fields, value)?;
            Ok(read)
        }
        Style::Tuple => {
            let demand = Demand::Fields(variant.fields.fields());
            let read = read_list(setting, texts, demand, length_of(demand), value)?;
            Ok(read)
        }
        Style::Newtype => {
            let read = read_only(setting, texts, left, variant.fields.fields(), value)?;
            Ok(read)
        }
        Style::Unit => {
            let read = as_single(setting.alloc, read_unit(setting.alloc, value))?;
            Ok(read)
        }
    }
}

#[cycle(read)]
fn read_only<T: Texts>(
    setting: &Setting<'_>,
    texts: &mut T,
    left: usize,
    fields: &[Field],
    value: &Value,
) -> Result<Outcome<Vec<Typed>>, TextFault>
    ensures answer { IfOk result (λ o. several_view o ≡ only_at (setting_view setting.now (T.relations texts.old)) left (fields_view fields.now) (kept_view value.now)) }
    ensures keeps { T.relations texts.new ≡ T.relations texts.old }
    ensures failed { IsErrOf result TextFault.Failed → Rises (T.faults texts.old) (T.faults texts.new) }
    ensures counts { T.faults texts.old ≤ T.faults texts.new }
{
    match fields {
        [field] => {
            let read = read_type(setting, texts, left, &field.field_type, value)?;
            let single = as_single(setting.alloc, read)?;
            Ok(single)
        }
        _ => Ok(refused_several(setting.alloc)),
    }
}

// The first variant that takes the value.
#[cycle(read)]
fn read_untagged<T: Texts>(
    setting: &Setting<'_>,
    texts: &mut T,
    left: usize,
    closed: bool,
    variants: &[Variant],
    value: &Value,
) -> Result<Outcome<Typed>, TextFault>
    ensures answer { IfOk result (λ o. one_view o ≡ untagged_at (setting_view setting.now (T.relations texts.old)) left closed 0 (variants_view variants.now) (kept_view value.now)) }
    ensures keeps { T.relations texts.new ≡ T.relations texts.old }
    ensures failed { IsErrOf result TextFault.Failed → Rises (T.faults texts.old) (T.faults texts.new) }
    ensures counts { T.faults texts.old ≤ T.faults texts.new }
{
    for (place, variant) in variants.iter().enumerate() {
        let short = short_place(place)?;
        let read = read_variant(setting, texts, left, closed, short, variant, value)?;
        match read {
            Outcome::Taken(typed) => return Ok(Outcome::Taken(typed)),
            Outcome::Refused(_) => {}
            Outcome::Unsound => return Ok(Outcome::Unsound),
        }
    }
    Ok(refused_here(setting.alloc))
}

#[cycle(read)]
#[tactic(auto, using(crate::proofs::Contents::unit_variant, crate::proofs::Contents::other_variant))]
fn read_variant<T: Texts>(
    setting: &Setting<'_>,
    texts: &mut T,
    left: usize,
    closed: bool,
    place: u32,
    variant: &Variant,
    value: &Value,
) -> Result<Outcome<Typed>, TextFault>
    ensures answer { IfOk result (λ o. one_view o ≡ variant_at (setting_view setting.now (T.relations texts.old)) left closed place (variant_view variant.now) (kept_view value.now)) }
    ensures keeps { T.relations texts.new ≡ T.relations texts.old }
    ensures failed { IsErrOf result TextFault.Failed → Rises (T.faults texts.old) (T.faults texts.new) }
    ensures counts { T.faults texts.old ≤ T.faults texts.new }
{
    let read = read_content(setting, texts, left, closed, variant, value)?;
    if is_unit(variant) {
        Ok(as_unit(setting.alloc, place, read))
    } else {
        Ok(as_variant(place, read))
    }
}

#[cycle(read)]
#[tactic(auto, using(crate::proofs::ListLevels::struct_level))]
fn read_struct<T: Texts>(
    setting: &Setting<'_>,
    texts: &mut T,
    closed: bool,
    fields: &Fields,
    value: &Value,
) -> Result<Outcome<Vec<Typed>>, TextFault>
    ensures answer { IfOk result (λ o. several_view o ≡ struct_at (setting_view setting.now (T.relations texts.old)) closed (fields_in fields.now) (kept_view value.now)) }
    ensures keeps { T.relations texts.new ≡ T.relations texts.old }
    ensures failed { IsErrOf result TextFault.Failed → Rises (T.faults texts.old) (T.faults texts.new) }
    ensures counts { T.faults texts.old ≤ T.faults texts.new }
{
    match value {
        Value::Object(object) => {
            let members = members_of(setting.alloc, object)?;
            let read = read_members(setting, texts, closed, fields, &members)?;
            Ok(read)
        }
        _ => Ok(refused_several(setting.alloc)),
    }
}

#[cycle(read)]
#[tactic(auto, using(crate::proofs::FieldSteps::unknown_there, crate::proofs::FieldSteps::none_unknown))]
fn read_members<T: Texts>(
    setting: &Setting<'_>,
    texts: &mut T,
    closed: bool,
    fields: &Fields,
    members: &[Member<'_>],
) -> Result<Outcome<Vec<Typed>>, TextFault>
    ensures answer { IfOk result (λ o. several_view o ≡ members_at (setting_view setting.now (T.relations texts.old)) closed (fields_in fields.now) (entries_view members.now)) }
    ensures keeps { T.relations texts.new ≡ T.relations texts.old }
    ensures failed { IsErrOf result TextFault.Failed → Rises (T.faults texts.old) (T.faults texts.new) }
    ensures counts { T.faults texts.old ≤ T.faults texts.new }
{
    let sorted = sort(setting.alloc, &*fields, &*members)?;
    match sorted.first_unknown(closed) {
        Some(member) => {
            let refused = refused_several_at(setting.alloc, member.name)?;
            Ok(refused)
        }
        None => {
            let read = read_fields(setting, texts, &sorted)?;
            Ok(read)
        }
    }
}

// The fields in order, a rest among them.
#[cycle(read)]
fn read_fields<T: Texts>(
    setting: &Setting<'_>,
    texts: &mut T,
    sorted: &Sorted<'_>,
) -> Result<Outcome<Vec<Typed>>, TextFault>
    requires { IsSorted sorted.now }
    ensures answer { IfOk result (λ o. several_view o ≡ fields_from (setting_view setting.now (T.relations texts.old)) (λ i. entries_at i (sorted_names sorted.now) (sorted_entries sorted.now)) (entries_without_place (sorted_names sorted.now) (sorted_entries sorted.now)) 0 (fields_in sorted.now.fields.now)) }
    ensures keeps { T.relations texts.new ≡ T.relations texts.old }
    ensures failed { IsErrOf result TextFault.Failed → Rises (T.faults texts.old) (T.faults texts.new) }
    ensures counts { T.faults texts.old ≤ T.faults texts.new }
{
    let mut taken = Vec::new(setting.alloc);
    for (place, field) in sorted.fields().iter().enumerate() {
        let read = read_field(setting, texts, sorted, place, field)?;
        match read {
            Outcome::Taken(typed) => push_typed(&mut taken, typed)?,
            Outcome::Refused(path) => return Ok(Outcome::Refused(path)),
            Outcome::Unsound => return Ok(Outcome::Unsound),
        }
    }
    Ok(Outcome::Taken(taken))
}

#[cycle(read)]
#[tactic(auto, using(crate::proofs::FieldSteps::rest_field, crate::proofs::FieldSteps::empty_field, crate::proofs::FieldSteps::one_field, crate::proofs::FieldSteps::two_field))]
fn read_field<T: Texts>(
    setting: &Setting<'_>,
    texts: &mut T,
    sorted: &Sorted<'_>,
    place: usize,
    field: &Field,
) -> Result<Outcome<Typed>, TextFault>
    requires place { place < length (fields_in sorted.now.fields.now) }
    requires sorted { IsSorted sorted.now }
    ensures answer { IfOk result (λ o. one_view o ≡ field_at (setting_view setting.now (T.relations texts.old)) (field_view field.now) (entries_without_place (sorted_names sorted.now) (sorted_entries sorted.now)) (entries_at place (sorted_names sorted.now) (sorted_entries sorted.now))) }
    ensures keeps { T.relations texts.new ≡ T.relations texts.old }
    ensures failed { IsErrOf result TextFault.Failed → Rises (T.faults texts.old) (T.faults texts.new) }
    ensures counts { T.faults texts.old ≤ T.faults texts.new }
{
    if field.is_rest {
        let read = read_rest(setting, texts, &field.field_type, sorted.unnamed())?;
        return Ok(read);
    }
    match sorted.slot(place) {
        Slot::Empty => {
            let read = read_missing(setting, texts, field)?;
            Ok(read)
        }
        Slot::One(member) => {
            let read = read_present(setting, texts, field, member)?;
            Ok(read)
        }
        Slot::Two(_, second) => {
            let refused = refused_at(setting.alloc, second.name)?;
            Ok(refused)
        }
    }
}

// A rest is a map.
#[cycle(read)]
fn read_rest<T: Texts>(
    setting: &Setting<'_>,
    texts: &mut T,
    ty: &ValueType,
    members: &[Member<'_>],
) -> Result<Outcome<Typed>, TextFault>
    ensures answer { IfOk result (λ o. one_view o ≡ rest_at (setting_view setting.now (T.relations texts.old)) (type_view ty.now) (entries_view members.now)) }
    ensures keeps { T.relations texts.new ≡ T.relations texts.old }
    ensures failed { IsErrOf result TextFault.Failed → Rises (T.faults texts.old) (T.faults texts.new) }
    ensures counts { T.faults texts.old ≤ T.faults texts.new }
{
    match ty {
        ValueType::Map(key, held) => {
            let read = read_pairs(setting, texts, key, held, members)?;
            Ok(as_map(read))
        }
        _ => Ok(refused_here(setting.alloc)),
    }
}

#[cycle(read)]
#[tactic(auto, using(crate::proofs::FieldSteps::helped_here))]
fn read_present<T: Texts>(
    setting: &Setting<'_>,
    texts: &mut T,
    field: &Field,
    member: Member<'_>,
) -> Result<Outcome<Typed>, TextFault>
    ensures answer { IfOk result (λ o. one_view o ≡ present_at (setting_view setting.now (T.relations texts.old)) (field_view field.now) (entry_view member.entry)) }
    ensures keeps { T.relations texts.new ≡ T.relations texts.old }
    ensures failed { IsErrOf result TextFault.Failed → Rises (T.faults texts.old) (T.faults texts.new) }
    ensures counts { T.faults texts.old ≤ T.faults texts.new }
{
    let read = read_helped(
        setting,
        texts,
        field.helper,
        &field.field_type,
        member.value,
    )?;
    let named = under_name(setting.alloc, member.name, read)?;
    Ok(named)
}

// As the helper says.
#[cycle(read)]
#[tactic(auto, using(crate::proofs::FieldSteps::inner_here))]
fn read_helped<T: Texts>(
    setting: &Setting<'_>,
    texts: &mut T,
    helper: Helper,
    ty: &ValueType,
    value: &Value,
) -> Result<Outcome<Typed>, TextFault>
    ensures answer { IfOk result (λ o. one_view o ≡ helped_at (setting_view setting.now (T.relations texts.old)) (helper_view helper) (type_view ty.now) (kept_view value.now)) }
    ensures keeps { T.relations texts.new ≡ T.relations texts.old }
    ensures failed { IsErrOf result TextFault.Failed → Rises (T.faults texts.old) (T.faults texts.new) }
    ensures counts { T.faults texts.old ≤ T.faults texts.new }
{
    match helper {
        Helper::Inner => {
            let read = read_inner(setting, texts, ty, value)?;
            Ok(read)
        }
        _ => {
            let read = read_part(setting, texts, ty, value)?;
            Ok(read)
        }
    }
}

// As what the option holds.
#[cycle(read)]
fn read_inner<T: Texts>(
    setting: &Setting<'_>,
    texts: &mut T,
    ty: &ValueType,
    value: &Value,
) -> Result<Outcome<Typed>, TextFault>
    ensures answer { IfOk result (λ o. one_view o ≡ inner_at (setting_view setting.now (T.relations texts.old)) (type_view ty.now) (kept_view value.now)) }
    ensures keeps { T.relations texts.new ≡ T.relations texts.old }
    ensures failed { IsErrOf result TextFault.Failed → Rises (T.faults texts.old) (T.faults texts.new) }
    ensures counts { T.faults texts.old ≤ T.faults texts.new }
{
    match ty {
        ValueType::Optional(inner) => {
            let read = read_part(setting, texts, inner, value)?;
            let held = as_some(setting.alloc, read)?;
            Ok(held)
        }
        _ => Ok(refused_here(setting.alloc)),
    }
}

#[cycle(read)]
fn read_missing<T: Texts>(
    setting: &Setting<'_>,
    texts: &mut T,
    field: &Field,
) -> Result<Outcome<Typed>, TextFault>
    ensures answer { IfOk result (λ o. one_view o ≡ missing_at (setting_view setting.now (T.relations texts.old)) (field_view field.now)) }
    ensures keeps { T.relations texts.new ≡ T.relations texts.old }
    ensures failed { IsErrOf result TextFault.Failed → Rises (T.faults texts.old) (T.faults texts.new) }
    ensures counts { T.faults texts.old ≤ T.faults texts.new }
{
    match field.default {
        FieldDefault::Stated(place) => {
            let read = read_default(setting, texts, place, &field.field_type)?;
            Ok(if_sound(read))
        }
        FieldDefault::Own => { Ok(Outcome::Taken(empty_value(setting.alloc, &field.field_type))) }
        FieldDefault::Nothing => {
            let read = without_default(setting, field)?;
            Ok(read)
        }
    }
}

/// A stated default, unless it was entered on the way.
#[cycle(read)]
#[tactic(auto, using(crate::proofs::Defaults::spent, crate::proofs::Defaults::entered_already, crate::proofs::Defaults::inside_default))]
pub(crate) fn read_default<T: Texts>(
    setting: &Setting<'_>,
    texts: &mut T,
    place: u32,
    ty: &ValueType,
) -> Result<Outcome<Typed>, TextFault>
    ensures answer { IfOk result (λ o. one_view o ≡ default_of (setting_view setting.now (T.relations texts.old)) place (type_view ty.now)) }
    ensures keeps { T.relations texts.new ≡ T.relations texts.old }
    ensures failed { IsErrOf result TextFault.Failed → Rises (T.faults texts.old) (T.faults texts.new) }
    ensures counts { T.faults texts.old ≤ T.faults texts.new }
{
    if setting.more == 0 {
        return Ok(Outcome::Unsound);
    }
    if setting.is_entered(place) {
        return Ok(Outcome::Unsound);
    }
    let entered = with_entered(setting.alloc, place, setting.entered)?;
    let inside = Setting {
        alloc: setting.alloc,
        containers: setting.containers,
        conversions: setting.conversions,
        entered: &entered,
        more: setting.more - 1,
        levels: setting.levels,
    };
    let read = read_stated(&inside, texts, place, ty)?;
    Ok(read)
}

#[cycle(read)]
#[tactic(auto, using(crate::proofs::Defaults::stated_there, crate::proofs::Defaults::stated_nowhere))]
fn read_stated<T: Texts>(
    setting: &Setting<'_>,
    texts: &mut T,
    place: u32,
    ty: &ValueType,
) -> Result<Outcome<Typed>, TextFault>
    ensures answer { IfOk result (λ o. one_view o ≡ default_stated (setting_view setting.now (T.relations texts.old)) place (type_view ty.now)) }
    ensures keeps { T.relations texts.new ≡ T.relations texts.old }
    ensures failed { IsErrOf result TextFault.Failed → Rises (T.faults texts.old) (T.faults texts.new) }
    ensures counts { T.faults texts.old ≤ T.faults texts.new }
{
    match setting.default_at(place) {
        Some(value) => {
            let read = read_part(setting, texts, ty, value)?;
            Ok(read)
        }
        None => {
            let null = Value::Null;
            let read = read_part(setting, texts, ty, &null)?;
            Ok(read)
        }
    }
}
