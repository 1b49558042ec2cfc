//! Containers, variants and fields from the first column of a line.
use crate::attributes::attribute::no_case;
use crate::attributes::numbers::place;
use rust_syntax::{
    Attribute, Data, DeriveInput, Field, Fields, Generics, LitStr, ParseFault, Ty, Variant,
    parse_type,
};
use rust_tokens::{Ident, Span};
use std::alloc::{AllocError, Global};

/// A name at that place.
pub(crate) fn name(alloc: Global, text: &str, at: u32) -> Result<Ident, AllocError> {
    Ok(Ident {
        text: String::from_str(alloc, text)?,
        span: place(at),
    })
}

fn ty_of(alloc: Global, text: &str, at: u32) -> Result<Ty, ParseFault> {
    let literal = LitStr {
        value: String::from_str(alloc, text)?,
        suffix: String::new(alloc),
        span: place(at),
    };
    parse_type(alloc, &literal)
}

fn field(alloc: Global, label: Option<Ident>, at: u32) -> Result<Field, ParseFault> {
    Ok(Field {
        attrs: Vec::new(alloc),
        ident: label,
        ty: ty_of(alloc, "u8", at)?,
    })
}

fn named_fields(alloc: Global, at: u32) -> Result<Fields, ParseFault> {
    let label = name(alloc, "f", at)?;
    let mut fields = Vec::new(alloc);
    fields.push(field(alloc, Some(label), at)?)?;
    Ok(Fields::Named(fields))
}

fn unnamed_fields(alloc: Global, count: u8, at: u32) -> Result<Fields, ParseFault> {
    let mut fields = Vec::new(alloc);
    for _ in 0..count {
        fields.push(field(alloc, None, at)?)?;
    }
    Ok(Fields::Unnamed(fields))
}

// The fields of a form, each of type `u8`.
fn fields_of(alloc: Global, form: &str, at: u32) -> Result<Fields, ParseFault> {
    match form {
        "named" => named_fields(alloc, at),
        "newtype" => unnamed_fields(alloc, 1, at),
        "tuple" => unnamed_fields(alloc, 2, at),
        "none" => unnamed_fields(alloc, 0, at),
        "unit" => Ok(Fields::Unit),
        _ => Err(no_case()),
    }
}

/// A variant of that name and form.
pub(crate) fn variant_of(
    alloc: Global,
    ident: &str,
    form: &str,
    attrs: Vec<Attribute>,
) -> Result<Variant, ParseFault> {
    Ok(Variant {
        attrs,
        ident: name(alloc, ident, 901)?,
        fields: fields_of(alloc, form, 902)?,
    })
}

// The variants of these forms.
fn variants_of(alloc: Global, forms: &str) -> Result<Vec<Variant>, ParseFault> {
    let mut variants = Vec::new(alloc);
    let mut at: u32 = 910;
    for form in forms.split(" ") {
        if !form.is_empty() {
            let next = at.saturating_add(1);
            variants.push(Variant {
                attrs: Vec::new(alloc),
                ident: name(alloc, "V", at)?,
                fields: fields_of(alloc, form, next)?,
            })?;
            at = next.saturating_add(1);
        }
    }
    Ok(variants)
}

fn body_of(alloc: Global, kind: &str, form: &str) -> Result<Data, ParseFault> {
    let keyword: Span = place(900);
    match kind {
        "struct" => Ok(Data::Struct(fields_of(alloc, form, 902)?, keyword)),
        "enum" => Ok(Data::Enum(variants_of(alloc, form)?, keyword)),
        "union" => Ok(Data::Union(Vec::new(alloc), keyword)),
        _ => Err(no_case()),
    }
}

/// A container of that kind, name and form.
pub(crate) fn container_of(
    alloc: Global,
    kind: &str,
    ident: &str,
    form: &str,
    attrs: Vec<Attribute>,
) -> Result<DeriveInput, ParseFault> {
    Ok(DeriveInput {
        attrs,
        ident: name(alloc, ident, 901)?,
        generics: Generics {
            params: Vec::new(alloc),
            where_clause: Vec::new(alloc),
        },
        body: body_of(alloc, kind, form)?,
    })
}

/// A field of that type; it has that name, or none where a number stands there.
pub(crate) fn field_of(
    alloc: Global,
    label: &str,
    number: Option<usize>,
    ty: &str,
    attrs: Vec<Attribute>,
) -> Result<Field, ParseFault> {
    let ident = match number {
        Some(_) => None,
        None => Some(name(alloc, label, 901)?),
    };
    Ok(Field {
        attrs,
        ident,
        ty: ty_of(alloc, ty, 902)?,
    })
}

/// The variant, with that one field, that holds a field with `of` before some attributes.
pub(crate) fn holder_of(alloc: Global, attrs: Vec<Attribute>) -> Result<Variant, ParseFault> {
    variant_of(alloc, "V", "newtype", attrs)
}
