//! What attributes say, as text: parts with `; ` between two.
use attr_parts::{Default, Identifier, MultiName, Name, RenameAllRules, RenameRule, TagType};
use derive_attr::attr;
use rust_syntax::{ExprPath, Lifetime, Path, ToTokens, Ty, WherePredicate};
use rust_tokens::{Span, TokenStream};
use std::alloc::AllocError;
use std::collections::BTreeSet;
use std::fmt::Write;

/// A place behind `@`.
pub(crate) fn show_place(out: &mut String, span: Span) -> Result<(), AllocError> {
    let lo = span.lo;
    let hi = span.hi;
    if lo == hi {
        write!(out, " @{lo}")
    } else {
        write!(out, " @{lo}-{hi}")
    }
}

fn show_flag(out: &mut String, label: &str, is_set: bool) -> Result<(), AllocError> {
    if is_set {
        out.push_str("; ")?;
        out.push_str(label)?;
    }
    Ok(())
}

fn show_name(out: &mut String, name: &Name) -> Result<(), AllocError> {
    write!(out, " {name}")?;
    show_place(out, name.span)
}

fn show_names(out: &mut String, names: &MultiName) -> Result<(), AllocError> {
    out.push_str("name")?;
    show_name(out, names.serialize_name())?;
    show_name(out, names.deserialize_name())
}

fn show_aliases(out: &mut String, aliases: &BTreeSet<Name>) -> Result<(), AllocError> {
    if !aliases.is_empty() {
        out.push_str("; aliases")?;
        for name in aliases {
            show_name(out, name)?;
        }
    }
    Ok(())
}

fn rule_text(rule: RenameRule) -> &'static str {
    match rule {
        RenameRule::None => "none",
        RenameRule::LowerCase => "lower",
        RenameRule::UpperCase => "upper",
        RenameRule::PascalCase => "pascal",
        RenameRule::CamelCase => "camel",
        RenameRule::SnakeCase => "snake",
        RenameRule::ScreamingSnakeCase => "screaming snake",
        RenameRule::KebabCase => "kebab",
        RenameRule::ScreamingKebabCase => "screaming kebab",
    }
}

fn show_rules(out: &mut String, label: &str, rules: RenameAllRules) -> Result<(), AllocError> {
    if rules.serialize != RenameRule::None || rules.deserialize != RenameRule::None {
        let written = rule_text(rules.serialize);
        let read = rule_text(rules.deserialize);
        write!(out, "; {label} {written}, {read}")?;
    }
    Ok(())
}

fn show_tree<T: ToTokens>(out: &mut String, tree: &T) -> Result<(), AllocError> {
    let alloc = *out.allocator();
    let mut tokens = TokenStream::new(alloc);
    tree.to_tokens(&mut tokens)?;
    let text = tokens.text(alloc)?;
    out.push_str(&text)
}

fn show_ty(out: &mut String, label: &str, ty: Option<&Ty>) -> Result<(), AllocError> {
    if let Some(ty) = ty {
        write!(out, "; {label} ")?;
        show_tree(out, ty)?;
    }
    Ok(())
}

fn show_path(out: &mut String, label: &str, path: Option<&Path>) -> Result<(), AllocError> {
    if let Some(path) = path {
        write!(out, "; {label} ")?;
        show_tree(out, path)?;
    }
    Ok(())
}

fn show_function(out: &mut String, label: &str, path: Option<&ExprPath>) -> Result<(), AllocError> {
    if let Some(path) = path {
        write!(out, "; {label} ")?;
        show_tree(out, path)?;
    }
    Ok(())
}

fn show_bound(
    out: &mut String,
    label: &str,
    bound: Option<&[WherePredicate]>,
) -> Result<(), AllocError> {
    if let Some(predicates) = bound {
        write!(out, "; {label} [")?;
        for predicate in predicates {
            show_tree(out, predicate)?;
            out.push_str(" , ")?;
        }
        out.push_str("]")?;
    }
    Ok(())
}

fn show_default(out: &mut String, default: &Default) -> Result<(), AllocError> {
    match default {
        Default::None => Ok(()),
        Default::Default => out.push_str("; default"),
        Default::Path(path) => show_function(out, "default", Some(path)),
    }
}

fn show_tag(out: &mut String, tag: &TagType) -> Result<(), AllocError> {
    match tag {
        TagType::External => Ok(()),
        TagType::Internal { tag } => write!(out, "; tag {tag:?}"),
        TagType::Adjacent { tag, content } => write!(out, "; tag {tag:?} content {content:?}"),
        TagType::None => out.push_str("; untagged"),
    }
}

fn show_identifier(out: &mut String, identifier: Identifier) -> Result<(), AllocError> {
    match identifier {
        Identifier::No => Ok(()),
        Identifier::Field => out.push_str("; field identifier"),
        Identifier::Variant => out.push_str("; variant identifier"),
    }
}

fn show_expecting(out: &mut String, text: Option<&str>) -> Result<(), AllocError> {
    match text {
        None => Ok(()),
        Some(text) => write!(out, "; expecting {text:?}"),
    }
}

fn show_lifetimes(out: &mut String, lifetimes: &BTreeSet<Lifetime>) -> Result<(), AllocError> {
    if !lifetimes.is_empty() {
        out.push_str("; borrows")?;
        for lifetime in lifetimes {
            out.push_str(" ")?;
            show_tree(out, lifetime)?;
        }
    }
    Ok(())
}

fn show_conversions(out: &mut String, container: &attr::Container) -> Result<(), AllocError> {
    show_ty(out, "from", container.type_from())?;
    show_ty(out, "try_from", container.type_try_from())?;
    show_ty(out, "into", container.type_into())?;
    show_path(out, "remote", container.remote())?;
    show_path(out, "crate", container.custom_serde_path())
}

fn show_form(out: &mut String, container: &attr::Container) -> Result<(), AllocError> {
    show_tag(out, container.tag())?;
    show_identifier(out, container.identifier())?;
    show_flag(out, "packed", container.is_packed())?;
    show_flag(out, "non_exhaustive", container.non_exhaustive())?;
    show_expecting(out, container.expecting())
}

/// What the attributes of a container say.
pub(crate) fn show_container(
    out: &mut String,
    container: &attr::Container,
) -> Result<(), AllocError> {
    show_names(out, container.name())?;
    show_rules(out, "rename_all", container.rename_all_rules())?;
    show_rules(
        out,
        "rename_all_fields",
        container.rename_all_fields_rules(),
    )?;
    show_flag(out, "transparent", container.transparent())?;
    show_flag(out, "deny_unknown_fields", container.deny_unknown_fields())?;
    show_default(out, container.default())?;
    show_bound(out, "ser_bound", container.ser_bound())?;
    show_bound(out, "de_bound", container.de_bound())?;
    show_form(out, container)?;
    show_conversions(out, container)
}

/// What the attributes of a variant say.
pub(crate) fn show_variant(out: &mut String, variant: &attr::Variant) -> Result<(), AllocError> {
    show_names(out, variant.name())?;
    show_aliases(out, variant.aliases())?;
    show_rules(out, "rename_all", variant.rename_all_rules())?;
    show_bound(out, "ser_bound", variant.ser_bound())?;
    show_bound(out, "de_bound", variant.de_bound())?;
    show_flag(out, "skip_serializing", variant.skip_serializing())?;
    show_flag(out, "skip_deserializing", variant.skip_deserializing())?;
    show_flag(out, "other", variant.other())?;
    show_flag(out, "untagged", variant.untagged())?;
    show_function(out, "serialize_with", variant.serialize_with())?;
    show_function(out, "deserialize_with", variant.deserialize_with())
}

fn show_functions(out: &mut String, field: &attr::Field) -> Result<(), AllocError> {
    show_function(out, "skip_serializing_if", field.skip_serializing_if())?;
    show_function(out, "serialize_with", field.serialize_with())?;
    show_function(out, "deserialize_with", field.deserialize_with())?;
    show_function(out, "getter", field.getter())
}

/// What the attributes of a field say.
pub(crate) fn show_field(out: &mut String, field: &attr::Field) -> Result<(), AllocError> {
    show_names(out, field.name())?;
    show_aliases(out, field.aliases())?;
    show_flag(out, "skip_serializing", field.skip_serializing())?;
    show_flag(out, "skip_deserializing", field.skip_deserializing())?;
    show_default(out, field.default())?;
    show_bound(out, "ser_bound", field.ser_bound())?;
    show_bound(out, "de_bound", field.de_bound())?;
    show_lifetimes(out, field.borrowed_lifetimes())?;
    show_flag(out, "flatten", field.flatten())?;
    show_flag(out, "transparent", field.transparent())?;
    show_functions(out, field)
}
