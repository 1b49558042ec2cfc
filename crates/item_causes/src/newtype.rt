//! Newtypes whose values are converted.
ghost use Rattle.std.specs.Prelude.{◌≡◌, ◌&&◌, is_some, map, option_map, IfOk};
ghost use Rattle.std.specs.List.{list_any};
ghost use Rattle.syntax_trees.specs.View.{ty as ty_view};
ghost use Rattle.conversion_table.specs.Conversions.{conversions_view};
ghost use Rattle.container_defs.specs.declared.style.Style.TheVariants.{Newtype};
ghost use Rattle.container_defs.specs.Container.{read_struct};
ghost use Rattle.container_defs.specs.Forms.{same_type, newtype_type, is_text, is_text_rule};
ghost use Rattle.derive_ast.specs.Views.{field_view, data_view, container_view};
ghost use Rattle.value_types.specs.ShapeView.{type_in};
ghost use Rattle.item_causes.specs.Newtypes.{or_outside, rules_for, converted, odd_try_from, text_rule_elsewhere};

use crate::rules::{has_one, has_text_rule};
use container_defs::Style;
use conversion_table::Conversions;
use derive_ast::{Container, Data, Field};
use item_forms::is_text;
use same_types::is_same;
use std::alloc::{AllocError, Global};
use syntax_trees::Ty;
use value_types::value_type;

#[tactic(auto, using(crate::proofs::Filtered::several_are_none))]
fn one_of<'a>(fields: &'a [Field<'_>]) -> Option<&'a Ty>
    ensures { or_outside (option_map (λ t. type_in t.now) result) ≡ newtype_type (read_struct Newtype (map field_view fields.now)) }
{
    match fields {
        [] => None,
        [field] => Some(field.ty),
        _ => None,
    }
}

fn newtype_in<'a>(style: Style, fields: &'a [Field<'_>]) -> Option<&'a Ty>
    ensures { or_outside (option_map (λ t. type_in t.now) result) ≡ newtype_type (read_struct style (map field_view fields.now)) }
{
    match style {
        Style::Struct => None,
        Style::Tuple => None,
        Style::Newtype => one_of(fields),
        Style::Unit => None,
    }
}

fn newtype_of<'a>(body: &'a Data<'_>) -> Option<&'a Ty>
    ensures { or_outside (option_map (λ t. type_in t.now) result) ≡ newtype_type (data_view body.now) }
{
    match body {
        Data::Enum(_) => None,
        Data::Struct(style, fields) => newtype_in(*style, fields),
    }
}

fn are_same(alloc: Global, a: &Ty, b: &Ty) -> Result<bool, AllocError>
    ensures { IfOk result (λ r. r ≡ same_type (type_in a.now) (type_in b.now)) }
{
    let first = value_type(alloc, a)?;
    let second = value_type(alloc, b)?;
    Ok(is_same(&first, &second))
}

#[tactic(auto, using(crate::proofs::Filtered::not_same, crate::proofs::Filtered::same_of))]
fn is_newtype_of(alloc: Global, body: &Data<'_>, ty: &Ty) -> Result<bool, AllocError>
    ensures { IfOk result (λ r. r ≡ same_type (newtype_type (data_view body.now)) (type_in ty.now)) }
{
    match newtype_of(body) {
        Some(inner) => {
            let same = are_same(alloc, inner, ty)?;
            Ok(same)
        }
        None => Ok(false),
    }
}

fn is_converted(
    alloc: Global,
    conversions: &Conversions,
    container: &Container<'_>,
    ty: &Ty,
) -> Result<bool, AllocError>
    ensures { IfOk result (λ r. r ≡ converted (conversions_view conversions.now) (container_view container.now) (ty_view ty.now)) }
{
    let same = is_newtype_of(alloc, &container.body, ty)?;
    Ok(same && has_one(&conversions.constraints, &container.ident.text))
}

/// Whether the container is read as a type that isn't its one field's, or without one rule of its name.
#[tactic(auto, using(crate::proofs::Filtered::converts_otherwise, crate::proofs::Filtered::converts_none))]
pub fn has_odd_try_from(
    alloc: Global,
    conversions: &Conversions,
    container: &Container<'_>,
) -> Result<bool, AllocError>
    ensures { IfOk result (λ r. r ≡ odd_try_from (conversions_view conversions.now) (container_view container.now)) }
{
    match container.attrs.type_try_from() {
        Some(ty) => {
            let converted = is_converted(alloc, conversions, container, ty)?;
            Ok(!converted)
        }
        None => Ok(false),
    }
}

#[tactic(auto, using(item_models::proofs::Lists::some_seen))]
fn tries_from(container: &Container<'_>) -> bool
    ensures { result ≡ is_some (container_view container.now).attrs.type_try_from }
{
    container.attrs.type_try_from().is_some()
}

#[tactic(auto, using(crate::proofs::Filtered::no_text, crate::proofs::Filtered::text_of))]
fn is_of_texts(body: &Data<'_>) -> bool
    ensures { result ≡ is_text (newtype_type (data_view body.now)) }
{
    match newtype_of(body) {
        Some(ty) => is_text(ty),
        None => false,
    }
}

fn has_text_rule_of(conversions: &Conversions, container: &Container<'_>) -> bool
    ensures { result ≡ list_any (λ r. is_text_rule r.rule) (rules_for (conversions_view conversions.now) (container_view container.now)) }
{
    has_text_rule(&conversions.constraints, &container.ident.text)
}

fn is_ruled_as_text(conversions: &Conversions, container: &Container<'_>) -> bool
    ensures { result ≡ (is_some (container_view container.now).attrs.type_try_from && list_any (λ r. is_text_rule r.rule) (rules_for (conversions_view conversions.now) (container_view container.now))) }
{
    tries_from(container) && has_text_rule_of(conversions, container)
}

/// Whether a rule for texts is of the name of a container that is converted, and whose one field is no text.
pub fn has_text_rule_elsewhere(conversions: &Conversions, container: &Container<'_>) -> bool
    ensures { result ≡ text_rule_elsewhere (conversions_view conversions.now) (container_view container.now) }
{
    is_ruled_as_text(conversions, container) && !is_of_texts(&container.body)
}
