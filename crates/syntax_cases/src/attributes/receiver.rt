//! An item from the columns behind `receiver`, and the text of the item with its `Self` replaced.
use crate::attributes::form::{literal, name, ty_of};
use derive_receiver::replace_receiver;
use rust_syntax::{
    Bound, Data, DeriveInput, Field, Fields, GenericParam, Generics, ParseFault, SyntaxError,
    SyntaxKind, ToTokens, Ty, Variant, WherePredicate, parse_where,
};
use rust_tokens::{Ident, Span, TokenStream};
use std::alloc::{AllocError, Global};

// What stands before the next ` | `, and what stands behind it.
fn column(line: &str) -> (&str, &str) {
    match line.split_once(" | ") {
        Some((first, rest)) => (first.trim(), rest),
        None => (line.trim(), ""),
    }
}

fn no_case() -> ParseFault {
    ParseFault::Syntax(SyntaxError {
        kind: SyntaxKind::UnexpectedToken,
        span: Span::call_site(),
    })
}

fn predicates_of(alloc: Global, text: &str) -> Result<Vec<WherePredicate>, ParseFault> {
    if text.is_empty() {
        return Ok(Vec::new(alloc));
    }
    let lit = literal(alloc, text)?;
    let predicates = parse_where(alloc, &lit)?;
    Ok(predicates)
}

fn name_of(alloc: Global, ty: &Ty) -> Result<Ident, ParseFault> {
    match ty {
        Ty::Path { path, .. } => match path.segments.first() {
            Some(segment) => Ok(segment.ident.try_clone(alloc)?),
            None => Err(no_case()),
        },
        _ => Err(no_case()),
    }
}

fn copied(alloc: Global, bounds: &Vec<Bound>) -> Result<Vec<Bound>, AllocError> {
    let mut copies = Vec::new(alloc);
    for bound in bounds {
        copies.push(bound.try_clone(alloc)?)?;
    }
    Ok(copies)
}

// A constant's type: the path that stands as the first bound.
fn ty_of_bounds(alloc: Global, bounds: &Vec<Bound>) -> Result<Ty, ParseFault> {
    match bounds.first() {
        Some(Bound::Trait(path)) => Ok(Ty::Path {
            qself: None,
            path: path.try_clone(alloc)?,
        }),
        _ => Err(no_case()),
    }
}

fn param_of(alloc: Global, predicate: &WherePredicate) -> Result<GenericParam, ParseFault> {
    match predicate {
        WherePredicate::Lifetime { lifetime, .. } => {
            Ok(GenericParam::Lifetime(lifetime.try_clone(alloc)?))
        }
        WherePredicate::Ty { ty, bounds } => match ty {
            Ty::Slice(elem) => Ok(GenericParam::Const {
                ident: name_of(alloc, elem)?,
                ty: ty_of_bounds(alloc, bounds)?,
            }),
            _ => Ok(GenericParam::Ty {
                ident: name_of(alloc, ty)?,
                bounds: copied(alloc, bounds)?,
            }),
        },
    }
}

fn params_of(alloc: Global, text: &str) -> Result<Vec<GenericParam>, ParseFault> {
    let predicates = predicates_of(alloc, text)?;
    let mut params = Vec::new(alloc);
    for predicate in &predicates {
        params.push(param_of(alloc, predicate)?)?;
    }
    Ok(params)
}

fn fields_of(alloc: Global, label: Option<Ident>, ty: Ty) -> Result<Vec<Field>, AllocError> {
    let mut fields = Vec::new(alloc);
    fields.push(Field {
        attrs: Vec::new(alloc),
        ident: label,
        ty,
    })?;
    Ok(fields)
}

fn named_field(alloc: Global, ty: Ty) -> Result<Vec<Field>, AllocError> {
    let label = name(alloc, "f")?;
    fields_of(alloc, Some(label), ty)
}

fn enum_of(alloc: Global, fields: Fields) -> Result<Data, AllocError> {
    let mut variants = Vec::new(alloc);
    variants.push(Variant {
        attrs: Vec::new(alloc),
        ident: name(alloc, "V")?,
        fields,
    })?;
    Ok(Data::Enum(variants, Span::call_site()))
}

fn body_of(alloc: Global, kind: &str, ty: Ty) -> Result<Data, ParseFault> {
    let at = Span::call_site();
    match kind {
        "struct" => Ok(Data::Struct(Fields::Named(named_field(alloc, ty)?), at)),
        "tuple" => Ok(Data::Struct(Fields::Unnamed(fields_of(alloc, None, ty)?), at)),
        "unit" => Ok(Data::Struct(Fields::Unit, at)),
        "enum" => Ok(enum_of(alloc, Fields::Unnamed(fields_of(alloc, None, ty)?))?),
        "cases" => Ok(enum_of(alloc, Fields::Named(named_field(alloc, ty)?))?),
        "union" => Ok(Data::Union(named_field(alloc, ty)?, at)),
        _ => Err(no_case()),
    }
}

fn item_of(alloc: Global, line: &str) -> Result<DeriveInput, ParseFault> {
    let (head, rest) = column(line);
    let (params, rest) = column(rest);
    let (predicates, rest) = column(rest);
    let (form, text) = column(rest);
    let Some((kind, ident)) = head.split_once(" ") else {
        return Err(no_case());
    };
    let ty = ty_of(alloc, form, text)?;
    Ok(DeriveInput {
        attrs: Vec::new(alloc),
        ident: name(alloc, ident)?,
        generics: Generics {
            params: params_of(alloc, params)?,
            where_clause: predicates_of(alloc, predicates)?,
        },
        body: body_of(alloc, kind, ty)?,
    })
}

/// The text of the item with its `Self` replaced.
pub(crate) fn replaced(alloc: Global, line: &str) -> Result<String, ParseFault> {
    let mut item = item_of(alloc, line)?;
    replace_receiver(alloc, &mut item)?;
    let mut tokens = TokenStream::new(alloc);
    item.to_tokens(&mut tokens)?;
    let text = tokens.text(alloc)?;
    Ok(text)
}
