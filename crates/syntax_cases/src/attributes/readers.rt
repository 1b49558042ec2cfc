//! The readers are called, and what they answer is printed.
ghost use Rattle.std.specs.Prelude.{◌≡◌, ◌++◌, codes, string_bytes, IfOk};

use crate::attributes::case::Case;
use crate::attributes::item::{container_of, field_of, holder_of, name, variant_of};
use crate::attributes::show::{show_container, show_field, show_place, show_variant};
use attr_parts::{Ctxt, Default, RenameAllRules, RenameRule, Renamer};
use derive_attr::attr;
use rust_syntax::{Attribute, Field, ParseFault};
use std::alloc::{AllocError, Global};
use std::fmt::Write;

/// Puts `v_` or `f_` before a name, whatever the rule.
#[derive(Clone, Copy)]
struct Marks;

// The name behind the mark.
fn marked(alloc: Global, mark: &str, name: &str) -> Result<String, AllocError>
    ensures { IfOk result (λ s. string_bytes s ≡ mark.now ++ name.now) }
{
    let mut text = String::from_str(alloc, mark)?;
    text.push_str(name)?;
    Ok(text)
}

impl Renamer for Marks {
    ghost variant_name = { λ r n. codes "v_" ++ n };

    ghost field_name = { λ r n. codes "f_" ++ n };

    fn apply_to_variant(
        &self,
        alloc: Global,
        _rule: RenameRule,
        name: &str,
    ) -> Result<String, AllocError> {
        marked(alloc, "v_", name)
    }

    fn apply_to_field(
        &self,
        alloc: Global,
        _rule: RenameRule,
        name: &str,
    ) -> Result<String, AllocError> {
        marked(alloc, "f_", name)
    }
}

// What was collected, each with its place.
fn told_of(alloc: Global, cx: Ctxt) -> Result<String, AllocError> {
    let mut out = String::new(alloc);
    match cx.check() {
        Ok(()) => out.push_str("ok")?,
        Err(diagnostics) => {
            for diagnostic in &diagnostics {
                if !out.is_empty() {
                    out.push_str("; ")?;
                }
                write!(out, "{diagnostic}")?;
                show_place(&mut out, diagnostic.span)?;
            }
        }
    }
    out.push_str(" | ")?;
    Ok(out)
}

/// A container's line.
pub(crate) fn read_container(
    alloc: Global,
    kind: &str,
    ident: &str,
    form: &str,
    case: Case,
) -> Result<String, ParseFault> {
    let Case { attrs, .. } = case;
    let item = container_of(alloc, kind, ident, form, attrs)?;
    let mut cx = Ctxt::new(alloc);
    let read = attr::Container::from_ast(alloc, &mut cx, &item);
    let mut line = told_of(alloc, cx)?;
    let container = read?;
    show_container(&mut line, &container)?;
    Ok(line)
}

fn renamed_variant(
    mut variant: attr::Variant,
    rules: Option<RenameAllRules>,
) -> Result<attr::Variant, AllocError> {
    if let Some(rules) = rules {
        variant.rename_by_rules(rules, &Marks)?;
    }
    Ok(variant)
}

/// A variant's line.
pub(crate) fn read_variant(
    alloc: Global,
    ident: &str,
    form: &str,
    case: Case,
) -> Result<String, ParseFault> {
    let Case { attrs, rules, .. } = case;
    let variant = variant_of(alloc, ident, form, attrs)?;
    let mut cx = Ctxt::new(alloc);
    let read = attr::Variant::from_ast(alloc, &mut cx, &variant);
    let mut line = told_of(alloc, cx)?;
    let variant = renamed_variant(read?, rules)?;
    show_variant(&mut line, &variant)?;
    Ok(line)
}

fn renamed_field(
    mut field: attr::Field,
    rules: Option<RenameAllRules>,
) -> Result<attr::Field, AllocError> {
    if let Some(rules) = rules {
        field.rename_by_rules(rules, &Marks)?;
    }
    Ok(field)
}

fn read_held(
    alloc: Global,
    cx: &mut Ctxt,
    held: Vec<Attribute>,
) -> Result<Option<attr::Variant>, ParseFault> {
    if held.is_empty() {
        return Ok(None);
    }
    let holder = holder_of(alloc, held)?;
    let variant = attr::Variant::from_ast(alloc, cx, &holder)?;
    Ok(Some(variant))
}

fn default_of(has_default: bool) -> Default {
    if has_default {
        Default::Default
    } else {
        Default::None
    }
}

fn field_in(
    alloc: Global,
    cx: &mut Ctxt,
    index: usize,
    field: &Field,
    held: Vec<Attribute>,
    has_default: bool,
) -> Result<attr::Field, ParseFault> {
    let holder = read_held(alloc, cx, held)?;
    let private = name(alloc, "private", 903)?;
    let default = default_of(has_default);
    let read = attr::Field::from_ast(alloc, cx, index, field, holder.as_ref(), &default, &private)?;
    Ok(read)
}

/// A field's line.
pub(crate) fn read_field(
    alloc: Global,
    label: &str,
    ty: &str,
    case: Case,
) -> Result<String, ParseFault> {
    let Case {
        attrs,
        held,
        has_default,
        rules,
    } = case;
    let number = match label.parse::<usize>() {
        Ok(number) => Some(number),
        Err(_) => None,
    };
    let field = field_of(alloc, label, number, ty, attrs)?;
    let mut cx = Ctxt::new(alloc);
    let read = field_in(
        alloc,
        &mut cx,
        number.unwrap_or(0),
        &field,
        held,
        has_default,
    );
    let mut line = told_of(alloc, cx)?;
    let field = renamed_field(read?, rules)?;
    show_field(&mut line, &field)?;
    Ok(line)
}
