//! Entries as text, with the ids of their parts.
use case_words::{format_word, int_word};
use schema_tree::Rule;
use std::alloc::AllocError;
use std::fmt::Write;
use typify_convert::{
    Content, FieldEntry, ItemEntry, ItemShape, State, TypeEntry, TypeId, TypeSpace, VariantEntry,
};

/// The entries in their order, each behind a bar.
pub(crate) fn push_entries(out: &mut String, space: &TypeSpace<'_>) -> Result<(), AllocError> {
    let mut entries = space.iter_types();
    let mut id: u64 = 0;
    while let Some(entry) = entries.next() {
        write!(out, " | {id} ")?;
        push_entry(out, entry)?;
        id = id.wrapping_add(1);
    }
    Ok(())
}

pub(crate) fn push_entry(out: &mut String, entry: &TypeEntry) -> Result<(), AllocError> {
    match entry {
        TypeEntry::Bool => out.push_str("bool"),
        TypeEntry::Integer(name) => out.push_str(int_word(*name)),
        TypeEntry::Text => out.push_str("text"),
        TypeEntry::Native(format) => out.push_str(format_word(*format)),
        TypeEntry::Any => out.push_str("any"),
        TypeEntry::Unit => out.push_str("unit"),
        TypeEntry::Option(id) => write!(out, "option {}", id.0),
        TypeEntry::Vec(id) => write!(out, "vec {}", id.0),
        TypeEntry::Set(id) => write!(out, "set {}", id.0),
        TypeEntry::Map(key, id) => write!(out, "map {} {}", key.0, id.0),
        TypeEntry::Tuple(ids) => push_ids(out, ids),
        TypeEntry::Array(id, count) => write!(out, "{count} of {}", id.0),
        TypeEntry::Reference(id) => write!(out, "at {}", id.0),
        TypeEntry::Item(item) => push_item(out, item),
    }
}

fn push_ids(out: &mut String, ids: &Vec<TypeId>) -> Result<(), AllocError> {
    out.push_str("(")?;
    for id in ids {
        write!(out, "{},", id.0)?;
    }
    out.push_str(")")
}

fn push_item(out: &mut String, item: &ItemEntry) -> Result<(), AllocError> {
    out.push_str(&item.name)?;
    match &item.shape {
        ItemShape::Struct {
            fields,
            closed,
            rest,
        } => {
            push_closed(out, *closed)?;
            push_fields(out, fields)?;
            match rest {
                Some(id) => write!(out, " rest {}", id.0),
                None => Ok(()),
            }
        }
        ItemShape::Enum {
            variants,
            closed,
            ..
        } => {
            push_closed(out, *closed)?;
            push_variants(out, variants)
        }
        ItemShape::Newtype { inner, rule } => {
            write!(out, " of {}", inner.0)?;
            push_rule(out, rule)
        }
    }
}

fn push_closed(out: &mut String, closed: bool) -> Result<(), AllocError> {
    out.push_str(if closed { " closed" } else { "" })
}

fn push_rule(out: &mut String, rule: &Option<Rule>) -> Result<(), AllocError> {
    match rule {
        Some(Rule::Text { .. }) => out.push_str(" texts"),
        Some(Rule::Allow(values)) => write!(out, " allow {}", values.len()),
        Some(Rule::Deny(values)) => write!(out, " deny {}", values.len()),
        None => Ok(()),
    }
}

fn push_fields(out: &mut String, fields: &Vec<FieldEntry>) -> Result<(), AllocError> {
    out.push_str(" {")?;
    for field in fields {
        push_field(out, field)?;
    }
    out.push_str("}")
}

fn push_field(out: &mut String, field: &FieldEntry) -> Result<(), AllocError> {
    let mark = match field.state {
        State::Required => "",
        State::Optional => "?",
        State::Stated(_) => "=",
    };
    let ident = field.ident.as_str();
    write!(out, " {ident}{mark}: {},", field.ty.0)
}

fn push_variants(out: &mut String, variants: &Vec<VariantEntry>) -> Result<(), AllocError> {
    out.push_str(" [")?;
    for variant in variants {
        push_variant(out, variant)?;
    }
    out.push_str("]")
}

fn push_variant(out: &mut String, variant: &VariantEntry) -> Result<(), AllocError> {
    let ident = variant.ident.as_str();
    write!(out, " {ident}")?;
    match &variant.content {
        Content::Unit => {}
        Content::Newtype(id) => write!(out, " {}", id.0)?,
        Content::Tuple(ids) => push_ids(out, ids)?,
        Content::Struct(fields) => push_fields(out, fields)?,
    }
    out.push_str(",")
}
