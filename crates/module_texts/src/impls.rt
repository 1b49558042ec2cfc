//! A conversion from what a newtype holds, for the rule that goes with it.
ghost use Rattle.std.specs.Prelude.{◌≡◌, ◌++◌, OnOk, map, option_map, string_bytes};
ghost use Rattle.syntax_trees.specs.View.{ty as ty_view};
ghost use Rattle.syntax_trees.specs.Item.{field_view, fields_view, body_view, item_view};
ghost use Rattle.module_texts.specs.Impls.{first_place, impl_for, impl_of, impl_text, inner_of, left_behind, own_rule, place_of};

use crate::rules::push_rule;
use crate::tokens::push_type;
use conversion_table::{Constraint, Rule};
use std::alloc::{AllocError, Global};
use syntax_trees::{Data, DeriveInput, Field, Fields, Ty};

fn place_of(fields: &[Field]) -> Option<&Ty>
    ensures { option_map (λ t. ty_view t.now) result ≡ place_of (map field_view fields.now) }
{
    match fields.split_first() {
        Some((first, _)) => Some(&first.ty),
        None => None,
    }
}

fn first_place(fields: &Fields) -> Option<&Ty>
    ensures { option_map (λ t. ty_view t.now) result ≡ first_place (fields_view fields.now) }
{
    match fields {
        Fields::Unnamed(fields) => place_of(fields),
        Fields::Named(_) | Fields::Unit => None,
    }
}

// The type that a newtype holds.
fn inner_of(body: &Data) -> Option<&Ty>
    ensures { option_map (λ t. ty_view t.now) result ≡ inner_of (body_view body.now) }
{
    match body {
        Data::Struct(fields, _) => first_place(fields),
        Data::Enum(_, _) | Data::Union(_, _) => None,
    }
}

fn push_impl(
    out: &mut String,
    alloc: Global,
    name: &str,
    inner: &Ty,
    rule: &Rule,
) -> Result<(), AllocError>
    ensures { OnOk result (string_bytes out.new ≡ string_bytes out.old ++ impl_text name.now (ty_view inner.now) rule.now) }
{
    out.push_str("\nimpl ::std::convert::TryFrom<")?;
    push_type(out, alloc, inner)?;
    out.push_str("> for ")?;
    out.push_str(name)?;
    out.push_str(" {\n    type Error = ::std::string::String;\n\n    fn try_from(value: ")?;
    push_type(out, alloc, inner)?;
    out.push_str(") -> ::std::result::Result<Self, Self::Error> {\n")?;
    push_rule(out, alloc, rule)?;
    out.push_str("        ::std::result::Result::Ok(Self(value))\n    }\n}\n")?;
    Ok(())
}

fn push_impl_for(
    out: &mut String,
    alloc: Global,
    item: &DeriveInput,
    rule: &Rule,
) -> Result<(), AllocError>
    ensures { OnOk result (string_bytes out.new ≡ string_bytes out.old ++ impl_for (item_view item.now) rule.now) }
{
    match inner_of(&item.body) {
        Some(inner) => push_impl(out, alloc, &item.ident.text, inner, rule),
        None => Ok(()),
    }
}

// The rule of the first constraint, where that is the item's.
fn own_rule<'a>(constraints: &'a [Constraint], name: &str) -> Option<&'a Rule>
    ensures { option_map (λ r. r.now) result ≡ own_rule constraints.now name.now }
{
    match constraints.split_first() {
        Some((first, _)) => {
            if first.item.as_str() == name {
                return Some(&first.rule);
            }
            None
        }
        None => None,
    }
}

/// The constraints that are left behind the item of that name.
pub(crate) fn left_behind<'a>(constraints: &'a [Constraint], name: &str) -> &'a [Constraint]
    ensures { result.now ≡ left_behind constraints.now name.now }
{
    match constraints.split_first() {
        Some((first, rest)) => {
            if first.item.as_str() == name {
                return rest;
            }
            constraints
        }
        None => constraints,
    }
}

/// Appends the conversion that an item's rule asks, where the first constraint is the item's.
pub(crate) fn push_impl_of(
    out: &mut String,
    alloc: Global,
    item: &DeriveInput,
    constraints: &[Constraint],
) -> Result<(), AllocError>
    ensures { OnOk result (string_bytes out.new ≡ string_bytes out.old ++ impl_of (item_view item.now) constraints.now) }
{
    match own_rule(constraints, &item.ident.text) {
        Some(rule) => push_impl_for(out, alloc, item, rule),
        None => Ok(()),
    }
}
