//! Missing fields.
ghost use Rattle.std.specs.Prelude.{◌≡◌, IfErr, IfOk, Some, option_map};
ghost use Rattle.typed_defs.specs.Typed.{newtype as newtype_typed};
ghost use Rattle.reading_defs.specs.Reading.{absent_within, container_absent as absent_in, empty_value as empty_value_in, type_absent};
ghost use Rattle.value_models.specs.ContainersView.{containers_in};
ghost use Rattle.value_models.specs.ContainerView.{container_view};
ghost use Rattle.value_models.specs.FieldView.{field_view};
ghost use Rattle.value_models.specs.TypeView.{type_view};
ghost use Rattle.value_models.specs.TypedView.{typed_view};
ghost use Rattle.value_parts.specs.Absences.{absence_view, inner_of, undefaulted};
ghost use Rattle.value_parts.specs.Seen.{one_view};
ghost use Rattle.value_parts.specs.Leaves.{absence as absence_in};

use crate::built::{newtype_of, no_items, no_pairs};
use crate::outcome::{Outcome, given, refused_here};
use crate::setting::Setting;
use schema_texts::TextFault;
use std::alloc::Global;
use value_models::{Body, Container, Containers, Field, Helper, Style, Typed, ValueType};

/// The empty value of a type that has one. It takes no memory.
pub fn empty_value(alloc: Global, ty: &ValueType) -> Typed
    ensures { typed_view result ≡ empty_value_in (type_view ty.now) }
{
    match ty {
        ValueType::Optional(_) => Typed::None,
        ValueType::List(_) => no_items(alloc),
        ValueType::Set(_) => no_items(alloc),
        ValueType::Map(_, _) => no_pairs(alloc),
        _ => Typed::Unit,
    }
}

/// What a type asks for an absence: an option, behind boxes, or an item.
#[derive(Clone, Copy)]
pub enum Absence<'a> {
    Option,
    Item(&'a str),
    Nothing,
}

/// What the type asks, behind its boxes.
pub fn absence_of(ty: &ValueType) -> Absence<'_>
    ensures { absence_view result ≡ absence_in (type_view ty.now) }
{
    match ty {
        ValueType::Optional(_) => Absence::Option,
        ValueType::Boxed(inner) => absence_of(inner),
        ValueType::Item(name) => Absence::Item(name),
        _ => Absence::Nothing,
    }
}

/// The type of a transparent newtype.
pub fn inner_type(container: &Container) -> Option<&ValueType>
    ensures { option_map (λ t. type_view t.now) result ≡ inner_of (container_view container.now) }
{
    if !container.transparent {
        return None;
    }
    match &container.body {
        Body::Struct(Style::Newtype, fields) => match fields.fields() {
            [field] => Some(&field.field_type),
            _ => None,
        },
        _ => None,
    }
}

fn as_newtype(alloc: Global, absent: Option<Typed>) -> Result<Option<Typed>, TextFault>
    ensures answer { IfOk result (λ o. option_map typed_view o ≡ option_map newtype_typed (option_map typed_view absent)) }
    ensures memory { IfErr result (λ e. e ≡ TextFault.Memory) }
{
    match absent {
        Some(typed) => {
            let held = newtype_of(alloc, typed)?;
            Ok(Some(held))
        }
        None => Ok(None),
    }
}

// No value, where the type leads to an option through boxes and transparent newtypes, of which so many may be entered.
#[cycle(absent)]
#[tactic(auto, using(crate::proofs::AbsentValues::by_option, crate::proofs::AbsentValues::by_nothing, crate::proofs::AbsentValues::by_item))]
fn absent(
    alloc: Global,
    containers: &Containers,
    left: usize,
    ty: &ValueType,
) -> Result<Option<Typed>, TextFault>
    ensures answer { let ms = containers_in containers.now in
        IfOk result (λ o. option_map typed_view o ≡ type_absent (absent_within ms left) (type_view ty.now)) }
    ensures memory { IfErr result (λ e. e ≡ TextFault.Memory) }
{
    match absence_of(ty) {
        Absence::Option => Ok(Some(Typed::None)),
        Absence::Item(name) => {
            let found = item_absent(alloc, containers, left, name)?;
            Ok(found)
        }
        Absence::Nothing => Ok(None),
    }
}

#[cycle(absent)]
fn item_absent(
    alloc: Global,
    containers: &Containers,
    left: usize,
    name: &str,
) -> Result<Option<Typed>, TextFault>
    ensures answer { IfOk result (λ o. option_map typed_view o ≡ absent_within (containers_in containers.now) left name.now) }
    ensures memory { IfErr result (λ e. e ≡ TextFault.Memory) }
{
    if left == 0 {
        return Ok(None);
    }
    match containers.named(name) {
        Some(container) => {
            let found = container_absent(alloc, containers, left - 1, container)?;
            Ok(found)
        }
        None => Ok(None),
    }
}

#[cycle(absent)]
#[tactic(auto, using(crate::proofs::AbsentValues::inside, crate::proofs::AbsentValues::not_inside))]
fn container_absent(
    alloc: Global,
    containers: &Containers,
    left: usize,
    container: &Container,
) -> Result<Option<Typed>, TextFault>
    ensures answer { IfOk result (λ o. option_map typed_view o ≡ absent_in (absent_within (containers_in containers.now) left) (Some (container_view container.now))) }
    ensures memory { IfErr result (λ e. e ≡ TextFault.Memory) }
{
    match inner_type(container) {
        Some(inner) => {
            let found = absent(alloc, containers, left, inner)?;
            let held = as_newtype(alloc, found)?;
            Ok(held)
        }
        None => Ok(None),
    }
}

/// A missing field that states no default. It fails where memory runs out.
pub fn without_default(setting: &Setting<'_>, field: &Field) -> Result<Outcome<Typed>, TextFault>
    ensures answer { IfOk result (λ o. one_view o ≡ undefaulted (containers_in setting.now.containers.now) (field_view field.now)) }
    ensures memory { IfErr result (λ e. e ≡ TextFault.Memory) }
{
    match field.helper {
        Helper::Nothing => {
            let found = absent(
                setting.alloc,
                setting.containers,
                setting.allowed(),
                &field.field_type,
            )?;
            Ok(given(setting.alloc, found))
        }
        _ => Ok(refused_here(setting.alloc)),
    }
}
