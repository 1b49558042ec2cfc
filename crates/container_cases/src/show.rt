//! Containers as text.
use attr_parts::{MultiName, Name, TagType};
use derive_ast::{Container, Data, Field, Style, Variant};
use rust_syntax::Member;
use rust_tokens::Span;
use std::alloc::AllocError;
use std::collections::BTreeSet;
use std::fmt::Write;

/// A place behind `@`.
pub(crate) fn show_place(out: &mut String, span: Span) -> Result<(), AllocError> {
    let lo = span.lo;
    let hi = span.hi;
    if lo == hi {
        write!(out, " @{lo}")
    } else {
        write!(out, " @{lo}-{hi}")
    }
}

fn show_aliases(out: &mut String, aliases: &BTreeSet<Name>, read: &Name) -> Result<(), AllocError> {
    for alias in aliases {
        if alias.value != read.value {
            write!(out, "+{alias}")?;
        }
    }
    Ok(())
}

// The names, where they are others than that one.
fn show_names(out: &mut String, own: &str, names: &MultiName) -> Result<(), AllocError> {
    let written = names.serialize_name();
    let read = names.deserialize_name();
    if written.value.as_str() != own || read.value.as_str() != own {
        write!(out, "={written}/{read}")?;
    }
    show_aliases(out, names.deserialize_aliases(), read)
}

fn show_field(out: &mut String, field: &Field) -> Result<(), AllocError> {
    let alloc = *out.allocator();
    let own = match &field.member {
        Member::Named(name) => name.text.clone()?,
        Member::Unnamed(number) => format!(in alloc; "{number}")?,
    };
    write!(out, " {own}")?;
    show_names(out, &own, field.attrs.name())?;
    if field.attrs.transparent() {
        out.push_str("*")?;
    }
    Ok(())
}

fn show_fields(out: &mut String, style: Style, fields: &[Field]) -> Result<(), AllocError> {
    let text = match style {
        Style::Struct => " struct",
        Style::Tuple => " tuple",
        Style::Newtype => " newtype",
        Style::Unit => " unit",
    };
    out.push_str(text)?;
    for field in fields {
        show_field(out, field)?;
    }
    Ok(())
}

fn show_variant(out: &mut String, variant: &Variant) -> Result<(), AllocError> {
    out.push_str("; ")?;
    out.push_str(&variant.ident.text)?;
    show_names(out, &variant.ident.text, variant.attrs.name())?;
    show_fields(out, variant.style, &variant.fields)
}

fn show_tag(out: &mut String, tag: &TagType) -> Result<(), AllocError> {
    match tag {
        TagType::External => Ok(()),
        TagType::Internal { tag } => write!(out, " internal {tag}"),
        TagType::Adjacent { tag, content } => write!(out, " adjacent {tag} {content}"),
        TagType::None => out.push_str(" untagged"),
    }
}

fn show_body(out: &mut String, container: &Container) -> Result<(), AllocError> {
    match &container.body {
        Data::Struct(style, fields) => show_fields(out, *style, fields),
        Data::Enum(variants) => {
            out.push_str(" enum")?;
            show_tag(out, container.attrs.tag())?;
            for variant in variants {
                show_variant(out, variant)?;
            }
            Ok(())
        }
    }
}

fn show_all(out: &mut String, body: &Data) -> Result<(), AllocError> {
    out.push_str("; all")?;
    let mut fields = body.all_fields();
    while let Some(field) = fields.next() {
        show_field(out, field)?;
    }
    if body.has_getter() {
        out.push_str(" getter")?;
    }
    Ok(())
}

fn show_parameters(out: &mut String, container: &Container) -> Result<(), AllocError> {
    let params = container.generics.params.len();
    let predicates = container.generics.where_clause.len();
    if params > 0 || predicates > 0 {
        write!(out, "<{params} {predicates}>")?;
    }
    Ok(())
}

/// What the item is read as.
pub(crate) fn show_container(out: &mut String, container: &Container) -> Result<(), AllocError> {
    out.push_str(&container.ident.text)?;
    show_names(out, &container.ident.text, container.attrs.name())?;
    show_parameters(out, container)?;
    show_body(out, container)?;
    show_all(out, &container.body)
}
