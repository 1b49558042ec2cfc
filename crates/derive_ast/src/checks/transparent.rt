//! `transparent` stands on a struct with one field that counts, which is marked (`check_transparent`).
//!
//! Such a struct is written and read as that field alone:
//!
//!     #[serde(transparent)]
//!     struct Meters { value: u32, unit: PhantomData<Unit> }
//!
//! Here `value` is marked, since `PhantomData` never counts. Neither does a field that is skipped, nor, in
//! reading, one with a default. An enum and a unit struct have no such field. `from`, `try_from` and `into`
//! say by which other type the struct is read or written, so they don't stand beside it.
ghost use Rattle.std.specs.Prelude.{◌≡◌, ◌++◌, bytes_eq, codes, cond, filter, map, OnOk, OnErr};
ghost use Rattle.syntax_trees.specs.Syntax.{segment_name};
ghost use Rattle.syntax_trees.specs.View.{ty as ty_view, path_view, segment_view};
ghost use Rattle.attr_parts.specs.Diagnostics.{diagnostics, kind_view, TellsFront};
ghost use Rattle.attr_parts.specs.Types.{last_name, path_segments};
ghost use Rattle.container_defs.specs.Checks.{told_if, at_item, is_phantom, takes_part, counts, counting_told, transparent_in, types_told, check_transparent, mark_counting, mark_in, marked};
ghost use Rattle.container_defs.specs.Container.{read_struct};
ghost use Rattle.derive_ast.specs.Counts.{count_with, count_of, count_told, mark_by};
ghost use Rattle.derive_ast.specs.Views.{field_view, data_view, container_view};

use crate::checks::tuple_defaults::has_no_default;
use crate::container::{Container, Data, Field};
use attr_parts::{Ctxt, Derive, DiagKind, place_of_item, ungroup};
use container_defs::Style;
use std::alloc::AllocError;
use syntax_trees::{Path, PathSegment, Ty};
use token_trees::Span;

/// How many fields count, and which one where one alone does.
#[derive(Clone, Copy)]
pub(crate) enum Count {
    None,
    One(usize),
    Many,
}

fn is_phantom_name(segment: &PathSegment) -> bool
    ensures { result ≡ bytes_eq (segment_name (segment_view segment.now)) (codes "PhantomData") }
{
    segment.ident.text.as_str() == "PhantomData"
}

fn ends_in_phantom(path: &Path) -> bool
    ensures { result ≡ bytes_eq (last_name (path_segments (path_view path.now))) (codes "PhantomData") }
{
    match path.segments.last() {
        None => false,
        Some(segment) => is_phantom_name(segment),
    }
}

// Whether the type is a path whose last name is `PhantomData`.
fn is_phantom_type(ty: &Ty) -> bool
    ensures { result ≡ is_phantom (ty_view ty.now) }
{
    match ungroup(ty) {
        Ty::Path { path, .. } => ends_in_phantom(path),
        _ => false,
    }
}

// Whether the derive uses the field.
fn is_used(derive: Derive, field: &Field) -> bool
    ensures { result ≡ takes_part derive (field_view field.now) }
{
    match derive {
        Derive::Serialize => !field.attrs.skip_serializing(),
        Derive::Deserialize => !field.attrs.skip_deserializing() && has_no_default(field),
    }
}

fn is_counted(derive: Derive, field: &Field) -> bool
    ensures { result ≡ counts derive (field_view field.now) }
{
    !is_phantom_type(field.ty) && is_used(derive, field)
}

impl Count {
    // With one more, which stands there.
    fn with(self, index: usize) -> Count
        ensures { result ≡ count_with index self }
    {
        match self {
            Count::None => Count::One(index),
            Count::One(_) => Count::Many,
            Count::Many => Count::Many,
        }
    }
}

fn count_on(derive: Derive, count: Count, index: usize, field: &Field) -> Count
    ensures { result ≡ cond (counts derive (field_view field.now)) (count_with index count) count }
{
    if is_counted(derive, field) {
        return count.with(index);
    }
    count
}

fn count_fields(derive: Derive, fields: &[Field]) -> Count
    ensures { result ≡ count_of derive (map field_view fields.now) }
{
    let mut count = Count::None;
    for (index, field) in fields.iter().enumerate() {
        count = count_on(derive, count, index, field);
    }
    count
}

fn tell_count(cx: &mut Ctxt, derive: Derive, count: Count, at: Span) -> Result<(), AllocError>
    ensures ok { OnOk result (diagnostics cx.new ≡ diagnostics cx.old ++ count_told derive count at) }
    ensures err { OnErr result (diagnostics cx.new ≡ diagnostics cx.old) }
{
    match count {
        Count::None => match derive {
            Derive::Serialize => cx.error_spanned_by(at, DiagKind::TransparentNoneSer),
            Derive::Deserialize => cx.error_spanned_by(at, DiagKind::TransparentNoneDe),
        },
        Count::One(_) => Ok(()),
        Count::Many => cx.error_spanned_by(at, DiagKind::TransparentMany),
    }
}

// A type that stands in the container's place is told, where it stands.
fn tell_type(
    cx: &mut Ctxt,
    cont: &Container,
    stands: bool,
    kind: DiagKind,
) -> Result<(), AllocError>
    ensures ok { OnOk result (diagnostics cx.new ≡ diagnostics cx.old ++ told_if stands (kind_view kind) (at_item (container_view cont.now))) }
    ensures err { OnErr result (diagnostics cx.new ≡ diagnostics cx.old) }
{
    if stands {
        return cx.error_spanned_by(place_of_item(cont.original), kind);
    }
    drop(kind);
    Ok(())
}

// Types in the container's place are told.
#[tactic(auto, using(attr_parts::proofs::Steps::tells_none, attr_parts::proofs::Steps::tells_later))]
fn check_types(cx: &mut Ctxt, cont: &Container) -> Result<(), AllocError>
    ensures ok { OnOk result (diagnostics cx.new ≡ diagnostics cx.old ++ types_told (container_view cont.now)) }
    ensures err { OnErr result (TellsFront (diagnostics cx.old) (diagnostics cx.new) (types_told (container_view cont.now))) }
{
    let is_from = cont.attrs.type_from().is_some();
    tell_type(cx, cont, is_from, DiagKind::TransparentFrom)?;
    let is_try_from = cont.attrs.type_try_from().is_some();
    tell_type(cx, cont, is_try_from, DiagKind::TransparentTryFrom)?;
    let is_into = cont.attrs.type_into().is_some();
    tell_type(cx, cont, is_into, DiagKind::TransparentInto)?;
    Ok(())
}

// What is told of the fields that count.
fn check_counting(
    cx: &mut Ctxt,
    derive: Derive,
    fields: &[Field],
    at: Span,
) -> Result<(), AllocError>
    ensures ok { OnOk result (diagnostics cx.new ≡ diagnostics cx.old ++ counting_told derive (filter (counts derive) (map field_view fields.now)) at) }
    ensures err { OnErr result (diagnostics cx.new ≡ diagnostics cx.old) }
{
    let count = count_fields(derive, fields);
    tell_count(cx, derive, count, at)?;
    Ok(())
}

// What is told of a struct of that style.
fn check_struct(
    cx: &mut Ctxt,
    derive: Derive,
    style: Style,
    fields: &[Field],
    at: Span,
) -> Result<(), AllocError>
    ensures ok { OnOk result (diagnostics cx.new ≡ diagnostics cx.old ++ transparent_in derive (read_struct style (map field_view fields.now)) at) }
    ensures err { OnErr result (diagnostics cx.new ≡ diagnostics cx.old) }
{
    match style {
        Style::Struct => check_counting(cx, derive, fields, at),
        Style::Tuple => check_counting(cx, derive, fields, at),
        Style::Newtype => check_counting(cx, derive, fields, at),
        Style::Unit => cx.error_spanned_by(at, DiagKind::TransparentUnit),
    }
}

// What is told of the body.
fn check_body(cx: &mut Ctxt, derive: Derive, body: &Data, at: Span) -> Result<(), AllocError>
    ensures ok { OnOk result (diagnostics cx.new ≡ diagnostics cx.old ++ transparent_in derive (data_view body.now) at) }
    ensures err { OnErr result (diagnostics cx.new ≡ diagnostics cx.old) }
{
    match body {
        Data::Enum(_) => cx.error_spanned_by(at, DiagKind::TransparentEnum),
        Data::Struct(style, fields) => check_struct(cx, derive, *style, fields, at),
    }
}

/// A transparent container is a struct with one field that counts, and no type stands in its place.
#[tactic(auto, using(attr_parts::proofs::Steps::tells_none, attr_parts::proofs::Steps::tells_later))]
pub(crate) fn check_transparency(
    cx: &mut Ctxt,
    cont: &Container,
    derive: Derive,
) -> Result<(), AllocError>
    ensures ok { OnOk result (diagnostics cx.new ≡ diagnostics cx.old ++ check_transparent derive (container_view cont.now)) }
    ensures err { OnErr result (TellsFront (diagnostics cx.old) (diagnostics cx.new) (check_transparent derive (container_view cont.now))) }
{
    if !cont.attrs.transparent() {
        return Ok(());
    }
    check_types(cx, cont)?;
    check_body(cx, derive, &cont.body, place_of_item(cont.original))?;
    Ok(())
}

// The field at that place is marked.
fn mark(fields: &mut Vec<Field>, count: Count)
    ensures { map field_view fields.new.items ≡ mark_by count (map field_view fields.old.items) }
{
    if let Count::One(index) = count {
        if index < fields.len() {
            fields[index].attrs.mark_transparent();
        }
    }
}

// The one field that counts is marked.
fn mark_fields(fields: &mut Vec<Field>, derive: Derive)
    ensures { map field_view fields.new.items ≡ mark_counting derive (map field_view fields.old.items) }
{
    let count = count_fields(derive, fields);
    mark(fields, count);
}

fn mark_body(body: &mut Data, derive: Derive)
    ensures { data_view body.new ≡ mark_in derive (data_view body.old) }
{
    match body {
        Data::Enum(_) => {}
        Data::Struct(Style::Unit, _) => {}
        Data::Struct(_, fields) => mark_fields(fields, derive),
    }
}

/// Of a transparent struct the one field that counts is marked.
pub(crate) fn mark_transparent_field(cont: &mut Container, derive: Derive)
    ensures marked { container_view cont.new ≡ marked derive (container_view cont.old) }
    ensures original { cont.new.original.now ≡ cont.old.original.now }
    ensures generics { cont.new.generics.now ≡ cont.old.generics.now }
{
    if cont.attrs.transparent() {
        mark_body(&mut cont.body, derive);
    }
}
