//! What is told of the pairs that a pair of places leads to, in the order in which it leads to them.
ghost use Rattle.std.specs.Prelude.{◌≡◌, ◌++◌, [], ◌∷◌, Some, IfOk, OnOk, length};
ghost use Rattle.value_models.specs.FieldView.{fields_view};
ghost use Rattle.value_models.specs.VariantView.{variants_view};
ghost use Rattle.evolve_defs.specs.Spots.{node_at};
ghost use Rattle.evolve_defs.specs.Steps.{lost_fields};
ghost use Rattle.evolve_ways.specs.Ways.{array_marks, by_new, each_rest, field_marks, fields_marks, found_marks, from_ruled, marks, marks_at, name_mark, place_marks, plain_marks, rest_marks, struct_marks, value_mark, variant_marks, with_contents};
ghost use Rattle.evolve_rows.specs.Found.{refs_view};
ghost use Rattle.evolve_rows.specs.FormView.{form_view, places_view};
ghost use Rattle.evolve_rows.specs.MarksView.{steps_view, those_view};
ghost use Rattle.evolve_rows.specs.PlaceView.{place_view, table_view};

use crate::fields::{Pick, of_struct, of_those};
use crate::form::{Form, Places};
use crate::lists::length_of;
use crate::look::look;
use crate::mark::{Mark, Step};
use crate::place::Tables;
use crate::turn::Pair;
use crate::variants::is_unit;
use std::alloc::{AllocError, Global};
use value_models::{Field, Variant};

// ---- fields

fn push_fields<'a>(steps: &mut Vec<Step<'a>>, fields: &[&'a Field]) -> Result<(), AllocError>
    ensures { OnOk result (steps_view steps.new.items ≡ steps_view steps.old.items ++ field_marks (refs_view fields.now)) }
{
    for field in fields {
        steps.push(Step::To(Mark::Field(&field.serialize_name)))?;
    }
    Ok(())
}

fn push_rests<'a>(steps: &mut Vec<Step<'a>>, fields: &[&Field]) -> Result<(), AllocError>
    ensures { OnOk result (steps_view steps.new.items ≡ steps_view steps.old.items ++ rest_marks (refs_view fields.now)) }
{
    for field in fields {
        let _field = field;
        steps.push(Step::To(Mark::Rest))?;
    }
    Ok(())
}

// Those of the lost fields, once for each new rest.
fn push_lost<'a>(
    steps: &mut Vec<Step<'a>>,
    lost: &[&'a Field],
    rests: &[&Field],
) -> Result<(), AllocError>
    ensures { OnOk result (steps_view steps.new.items ≡ steps_view steps.old.items ++ each_rest (field_marks (refs_view lost.now)) (refs_view rests.now)) }
{
    for rest in rests {
        let _rest = rest;
        push_fields(steps, lost)?;
    }
    Ok(())
}

// Those of the old rests, once for each new one.
fn push_held<'a>(
    steps: &mut Vec<Step<'a>>,
    held: &[&Field],
    rests: &[&Field],
) -> Result<(), AllocError>
    ensures { OnOk result (steps_view steps.new.items ≡ steps_view steps.old.items ++ each_rest (rest_marks (refs_view held.now)) (refs_view rests.now)) }
{
    for rest in rests {
        let _rest = rest;
        push_rests(steps, held)?;
    }
    Ok(())
}

// Those of the old fields that each new one finds; the others are left.
fn push_found<'a>(
    alloc: Global,
    steps: &mut Vec<Step<'a>>,
    old: Vec<&'a Field>,
    new: &[&Field],
) -> Result<Vec<&'a Field>, AllocError>
    ensures steps { OnOk result (steps_view steps.new.items ≡ steps_view steps.old.items ++ found_marks (refs_view new.now) (refs_view old.entry.items)) }
    ensures left { IfOk result (λ v. refs_view v.items ≡ lost_fields (refs_view new.now) (refs_view old.entry.items)) }
{
    let mut left = old;
    for field in new {
        let own = of_those(alloc, Pick::Own(*field), &left)?;
        push_fields(steps, &own)?;
        left = of_those(alloc, Pick::Other(*field), &left)?;
    }
    Ok(left)
}

fn fields_steps<'a>(
    alloc: Global,
    old: &'a [Field],
    new: &[Field],
) -> Result<Vec<Step<'a>>, AllocError>
    ensures { IfOk result (λ v. steps_view v.items ≡ fields_marks (fields_view old.now) (fields_view new.now)) }
{
    let plain = of_struct(alloc, Pick::Plain, old)?;
    let held = of_struct(alloc, Pick::Rest, old)?;
    let new_plain = of_struct(alloc, Pick::Plain, new)?;
    let rests = of_struct(alloc, Pick::Rest, new)?;
    let mut steps = Vec::new(alloc);
    let lost = push_found(alloc, &mut steps, plain, &new_plain)?;
    push_lost(&mut steps, &lost, &rests)?;
    push_held(&mut steps, &held, &rests)?;
    Ok(steps)
}

// ---- variants

fn with_contents<'a>(alloc: Global, variants: &'a [Variant]) -> Result<Vec<&'a Variant>, AllocError>
    ensures { IfOk result (λ v. those_view v.items ≡ with_contents (variants_view variants.now)) }
{
    let mut picked = Vec::new(alloc);
    for variant in variants {
        if !is_unit(variant) {
            picked.push(variant)?;
        }
    }
    Ok(picked)
}

fn steps_to<'a>(alloc: Global, variants: &[&'a Variant]) -> Result<Vec<Step<'a>>, AllocError>
    ensures { IfOk result (λ v. steps_view v.items ≡ variant_marks (those_view variants.now)) }
{
    let mut steps = Vec::new(alloc);
    for variant in variants {
        steps.push(Step::To(Mark::Variant(&variant.serialize_name)))?;
    }
    Ok(steps)
}

// Units lead no further.
fn content_steps<'a>(alloc: Global, variants: &'a [Variant]) -> Result<Vec<Step<'a>>, AllocError>
    ensures { IfOk result (λ v. steps_view v.items ≡ variant_marks (with_contents (variants_view variants.now))) }
{
    let picked = with_contents(alloc, variants)?;
    let steps = steps_to(alloc, &picked)?;
    Ok(steps)
}

fn variant_steps<'a>(alloc: Global, variants: &'a [Variant]) -> Result<Vec<Step<'a>>, AllocError>
    ensures { IfOk result (λ v. steps_view v.items ≡ variant_marks (variants_view variants.now)) }
{
    let mut steps = Vec::new(alloc);
    for variant in variants {
        steps.push(Step::To(Mark::Variant(&variant.serialize_name)))?;
    }
    Ok(steps)
}

// ---- lists, tuples, arrays and maps

#[tactic(auto, using(crate::proofs::Told::place_turn))]
fn place_steps(alloc: Global, count: usize) -> Result<Vec<Step<'static>>, AllocError>
    ensures { IfOk result (λ v. steps_view v.items ≡ place_marks count) }
{
    let mut steps = Vec::new(alloc);
    for place in 0..count {
        steps.push(Step::To(Mark::Place(place)))?;
    }
    Ok(steps)
}

// One step.
fn lone_step(alloc: Global, step: Step<'static>) -> Result<Vec<Step<'static>>, AllocError>
    ensures { IfOk result (λ v. steps_view v.items ≡ steps_view (step.entry ∷ [])) }
{
    let mut steps = Vec::new(alloc);
    steps.push(step)?;
    Ok(steps)
}

fn map_steps(alloc: Global) -> Result<Vec<Step<'static>>, AllocError>
    ensures { IfOk result (λ v. steps_view v.items ≡ Some name_mark ∷ Some value_mark ∷ []) }
{
    let mut steps = Vec::new(alloc);
    steps.push(Step::To(Mark::Name))?;
    steps.push(Step::To(Mark::Value))?;
    Ok(steps)
}

fn tuple_steps(alloc: Global, places: Places<'_>) -> Result<Vec<Step<'static>>, AllocError>
    ensures { IfOk result (λ v. steps_view v.items ≡ place_marks (length (places_view places.entry))) }
{
    let steps = place_steps(alloc, length_of(places))?;
    Ok(steps)
}

fn array_steps(alloc: Global, new: Form<'_>) -> Result<Vec<Step<'static>>, AllocError>
    ensures { IfOk result (λ v. steps_view v.items ≡ array_marks (form_view new.entry)) }
{
    match new {
        Form::Tuple(places) => {
            let steps = tuple_steps(alloc, places)?;
            Ok(steps)
        }
        _ => {
            let steps = lone_step(alloc, Step::To(Mark::Item))?;
            Ok(steps)
        }
    }
}

// ---- the rows

fn struct_steps<'a>(
    alloc: Global,
    old: &'a [Field],
    new: Form<'_>,
) -> Result<Vec<Step<'a>>, AllocError>
    ensures { IfOk result (λ v. steps_view v.items ≡ struct_marks (fields_view old.now) (form_view new.entry)) }
{
    match new {
        Form::Struct { closed: _, fields } => {
            let steps = fields_steps(alloc, old, fields)?;
            Ok(steps)
        }
        _ => Ok(Vec::new(alloc)),
    }
}

fn plain_steps<'a>(alloc: Global, old: Form<'a>, new: Form<'_>) -> Result<Vec<Step<'a>>, AllocError>
    ensures { IfOk result (λ v. steps_view v.items ≡ plain_marks (form_view old.entry) (form_view new.entry)) }
{
    match old {
        Form::List(_) | Form::Set(_) => {
            let steps = lone_step(alloc, Step::To(Mark::Item))?;
            Ok(steps)
        }
        Form::Tuple(places) => {
            let steps = tuple_steps(alloc, places)?;
            Ok(steps)
        }
        Form::Array(_, _) => {
            let steps = array_steps(alloc, new)?;
            Ok(steps)
        }
        Form::Map(_, _) => {
            let steps = map_steps(alloc)?;
            Ok(steps)
        }
        Form::Struct { closed: _, fields } => {
            let steps = struct_steps(alloc, fields, new)?;
            Ok(steps)
        }
        Form::External { variants, .. } => {
            let steps = content_steps(alloc, variants.variants())?;
            Ok(steps)
        }
        Form::Internal { variants, .. } => {
            let steps = variant_steps(alloc, variants.variants())?;
            Ok(steps)
        }
        Form::Adjacent { variants, .. } => {
            let steps = content_steps(alloc, variants.variants())?;
            Ok(steps)
        }
        Form::Any
        | Form::Unit
        | Form::Boolean
        | Form::Integer(_)
        | Form::Text
        | Form::Native(_)
        | Form::Optional(_)
        | Form::Ruled(_, _)
        | Form::Untagged { .. }
        | Form::Nothing => Ok(Vec::new(alloc)),
    }
}

fn from_steps<'a>(alloc: Global, old: Form<'a>, new: Form<'_>) -> Result<Vec<Step<'a>>, AllocError>
    ensures { IfOk result (λ v. steps_view v.items ≡ from_ruled (form_view old.entry) (form_view new.entry)) }
{
    match old {
        Form::Ruled(_, _) => {
            let steps = lone_step(alloc, Step::Inside)?;
            Ok(steps)
        }
        _ => {
            let steps = plain_steps(alloc, old, new)?;
            Ok(steps)
        }
    }
}

fn new_steps<'a>(alloc: Global, old: Form<'a>, new: Form<'_>) -> Result<Vec<Step<'a>>, AllocError>
    ensures { IfOk result (λ v. steps_view v.items ≡ by_new (form_view old.entry) (form_view new.entry)) }
{
    match new {
        Form::Optional(_) | Form::Untagged { .. } | Form::Ruled(_, _) => {
            let steps = lone_step(alloc, Step::Inside)?;
            Ok(steps)
        }
        _ => {
            let steps = from_steps(alloc, old, new)?;
            Ok(steps)
        }
    }
}

fn steps_of<'a>(alloc: Global, old: Form<'a>, new: Form<'_>) -> Result<Vec<Step<'a>>, AllocError>
    ensures { IfOk result (λ v. steps_view v.items ≡ marks (form_view old.entry) (form_view new.entry)) }
{
    match old {
        Form::Untagged { variants, .. } => {
            let steps = variant_steps(alloc, variants.variants())?;
            Ok(steps)
        }
        _ => {
            let steps = new_steps(alloc, old, new)?;
            Ok(steps)
        }
    }
}

/// What is told of the pairs that the pair leads to, in their order. It fails where memory runs out.
pub fn steps_at<'a>(tables: &Tables<'a>, pair: Pair<'a>) -> Result<Vec<Step<'a>>, AllocError>
    ensures { IfOk result (λ v. steps_view v.items ≡ marks_at (table_view tables.now.old) (table_view tables.now.new) (node_at (table_view tables.now.old) (place_view pair.entry.old)) (node_at (table_view tables.now.new) (place_view pair.entry.new))) }
{
    let old = look(&tables.old, pair.old);
    let new = look(&tables.new, pair.new);
    let steps = steps_of(tables.alloc, old, new)?;
    Ok(steps)
}
