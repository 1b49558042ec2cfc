//! The rows that look at both forms.
ghost use Rattle.std.specs.Prelude.{◌≡◌, ℕ, List, IfOk};
ghost use Rattle.value_models.specs.FieldView.{fields_view};
ghost use Rattle.value_models.specs.ContainerView.{variants_in};
ghost use Rattle.evolve_defs.specs.Forms.{external_form, internal_form, adjacent_form, struct_form};
ghost use Rattle.evolve_defs.specs.Spots.{plain_turn};
ghost use Rattle.evolve_rows.specs.FormView.{form_view, home_view};
ghost use Rattle.evolve_rows.specs.PlaceView.{table_view};
ghost use Rattle.evolve_rows.specs.TurnView.{turn_view};

use crate::fields::fields_turn;
use crate::form::Form;
use crate::lists::{array_row, checked, list_row, map_row, tuple_row};
use crate::place::Tables;
use crate::scalars::{boolean_row, integer_row, native_row, text_row, unit_row};
use crate::turn::{Broken, Turn};
use crate::variants::{all_led, are_units};
use std::alloc::AllocError;
use value_models::{Field, Variants};

// An enum told by the one member's name, to one told in another way.
fn external_row<'a>(
    tables: &Tables<'a>,
    home: &'a str,
    closed: bool,
    variants: &'a Variants,
    new: Form<'a>,
) -> Result<Turn<'a>, AllocError>
    ensures { IfOk result (λ t. turn_view t ≡ plain_turn (table_view tables.now.old) (table_view tables.now.new) home.now (home_view new.entry) (external_form closed (variants_in variants.now)) (form_view new.entry)) }
{
    match new {
        Form::External {
            home: new_home,
            closed: _,
            variants: new,
        } => {
            let turn = all_led(
                tables.alloc,
                false,
                home,
                variants.variants(),
                new_home,
                new,
            )?;
            Ok(turn)
        }
        Form::Internal { .. } | Form::Adjacent { .. } => Ok(Turn::Stops(Broken::Tag)),
        Form::Text => {
            if are_units(variants.variants()) {
                return Ok(Turn::Goes(Vec::new(tables.alloc)));
            }
            Ok(Turn::Stops(Broken::Kind))
        }
        _ => Ok(Turn::Stops(Broken::Kind)),
    }
}

fn internal_row<'a>(
    tables: &Tables<'a>,
    home: &'a str,
    closed: bool,
    tag: &'a str,
    variants: &'a Variants,
    new: Form<'a>,
) -> Result<Turn<'a>, AllocError>
    ensures { IfOk result (λ t. turn_view t ≡ plain_turn (table_view tables.now.old) (table_view tables.now.new) home.now (home_view new.entry) (internal_form closed tag.now (variants_in variants.now)) (form_view new.entry)) }
{
    match new {
        Form::Internal {
            home: new_home,
            closed: _,
            tag: new_tag,
            variants: new,
        } => {
            if tag != new_tag {
                return Ok(Turn::Stops(Broken::Tag));
            }
            let turn = all_led(tables.alloc, true, home, variants.variants(), new_home, new)?;
            Ok(turn)
        }
        Form::External { .. } | Form::Adjacent { .. } => Ok(Turn::Stops(Broken::Tag)),
        _ => Ok(Turn::Stops(Broken::Kind)),
    }
}

fn adjacent_row<'a>(
    tables: &Tables<'a>,
    home: &'a str,
    closed: bool,
    names: (&'a str, &'a str),
    variants: &'a Variants,
    new: Form<'a>,
) -> Result<Turn<'a>, AllocError>
    ensures { IfOk result (λ t. turn_view t ≡ plain_turn (table_view tables.now.old) (table_view tables.now.new) home.now (home_view new.entry) (adjacent_form closed names.entry.0.now names.entry.1.now (variants_in variants.now)) (form_view new.entry)) }
{
    let (tag, content) = names;
    match new {
        Form::Adjacent {
            home: new_home,
            closed: _,
            tag: new_tag,
            content: new_content,
            variants: new,
        } => {
            if tag != new_tag || content != new_content {
                return Ok(Turn::Stops(Broken::Tag));
            }
            let turn = all_led(
                tables.alloc,
                false,
                home,
                variants.variants(),
                new_home,
                new,
            )?;
            Ok(turn)
        }
        Form::External { .. } | Form::Internal { .. } => Ok(Turn::Stops(Broken::Tag)),
        _ => Ok(Turn::Stops(Broken::Kind)),
    }
}

fn struct_row<'a>(
    tables: &Tables<'a>,
    closed: bool,
    fields: &'a [Field],
    new: Form<'a>,
) -> Result<Turn<'a>, AllocError>
    ensures { (h k : List ℕ) → IfOk result (λ t. turn_view t ≡ plain_turn (table_view tables.now.old) (table_view tables.now.new) h k (struct_form closed (fields_view fields.now)) (form_view new.entry)) }
{
    match new {
        Form::Struct {
            closed: new_closed,
            fields: new,
        } => {
            let turn = fields_turn(tables.alloc, &tables.new, fields, new_closed, new)?;
            Ok(turn)
        }
        _ => Ok(Turn::Stops(Broken::Kind)),
    }
}

/// What is asked of two forms, where neither is an option, untagged or under a rule, and the new one isn't any value.
pub(crate) fn plain_row<'a>(
    tables: &Tables<'a>,
    old: Form<'a>,
    new: Form<'a>,
) -> Result<Turn<'a>, AllocError>
    ensures { IfOk result (λ t. turn_view t ≡ plain_turn (table_view tables.now.old) (table_view tables.now.new) (home_view old.entry) (home_view new.entry) (form_view old.entry) (form_view new.entry)) }
{
    let alloc = tables.alloc;
    match old {
        Form::Boolean => Ok(checked(alloc, boolean_row(new))),
        Form::Unit => Ok(checked(alloc, unit_row(new))),
        Form::Integer(range) => Ok(checked(alloc, integer_row(range, new))),
        Form::Text => Ok(checked(alloc, text_row(new))),
        Form::Native(format) => Ok(checked(alloc, native_row(format, new))),
        Form::List(items) => {
            let turn = list_row(alloc, items, new)?;
            Ok(turn)
        }
        Form::Set(items) => {
            let turn = list_row(alloc, items, new)?;
            Ok(turn)
        }
        Form::Tuple(places) => {
            let turn = tuple_row(alloc, places, new)?;
            Ok(turn)
        }
        Form::Array(items, length) => {
            let turn = array_row(alloc, items, length, new)?;
            Ok(turn)
        }
        Form::Map(key, value) => {
            let turn = map_row(alloc, key, value, new)?;
            Ok(turn)
        }
        Form::Struct { closed, fields } => {
            let turn = struct_row(tables, closed, fields, new)?;
            Ok(turn)
        }
        Form::External {
            home,
            closed,
            variants,
        } => {
            let turn = external_row(tables, home, closed, variants, new)?;
            Ok(turn)
        }
        Form::Internal {
            home,
            closed,
            tag,
            variants,
        } => {
            let turn = internal_row(tables, home, closed, tag, variants, new)?;
            Ok(turn)
        }
        Form::Adjacent {
            home,
            closed,
            tag,
            content,
            variants,
        } => {
            let turn = adjacent_row(tables, home, closed, (tag, content), variants, new)?;
            Ok(turn)
        }
        Form::Any | Form::Optional(_) | Form::Ruled(_, _) | Form::Untagged { .. } | Form::Nothing =>
            Ok(Turn::Stops(Broken::Kind)),
    }
}
