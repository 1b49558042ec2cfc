//! Calls, and what they answer.
ghost use Rattle.std.specs.Prelude.{◌≡◌, true, false, is_some};
ghost use Rattle.schema_defs.specs.Children.{schema_at};
ghost use Rattle.schema_tree.specs.Document.{view as document_seen};
ghost use Rattle.typify_convert.specs.Space.{document_in, is_begun};

use crate::entries::push_entry;
use case_words::push_fault;
use regex_texts::RegexTexts;
use schema_tree::{Document, Fault, Location};
use std::alloc::{AllocError, Global};
use std::fmt::Write;
use typify_convert::{TypeId, TypeSpace};

/// What references lead to.
pub(crate) fn push_begin(
    alloc: Global,
    out: &mut String,
    space: &mut TypeSpace<'_>,
    texts: &mut RegexTexts,
) -> Result<(), AllocError>
    requires { is_begun space.old ≡ false }
    ensures begun { is_begun space.new ≡ true }
    ensures document { document_in space.new ≡ document_in space.old }
{
    match space.add_ref_types(texts) {
        Ok(_) => out.push_str("begun"),
        Err(fault) => push_fault(alloc, out, &fault),
    }
}

/// Each call behind a semicolon.
pub(crate) fn push_calls(
    alloc: Global,
    out: &mut String,
    space: &mut TypeSpace<'_>,
    document: &Document,
    calls: &str,
    texts: &mut RegexTexts,
) -> Result<(), AllocError>
    requires begun { is_begun space.old ≡ true }
    requires document { document_in space.old ≡ document_seen document.now }
{
    for call in calls.split(' ') {
        push_call(alloc, out, space, document, call, texts)?;
    }
    Ok(())
}

fn push_call(
    alloc: Global,
    out: &mut String,
    space: &mut TypeSpace<'_>,
    document: &Document,
    call: &str,
    texts: &mut RegexTexts,
) -> Result<(), AllocError>
    requires begun { is_begun space.old ≡ true }
    requires document { document_in space.old ≡ document_seen document.now }
    ensures begun { is_begun space.new ≡ true }
    ensures document { document_in space.new ≡ document_seen document.now }
{
    if call.is_empty() {
        return Ok(());
    }
    write!(out, "; {call} ")?;
    if let Some(number) = call.strip_prefix('?') {
        return push_found(out, space, number);
    }
    match call.split_once('=') {
        Some((place, name)) => push_added(alloc, out, space, document, place, Some(name), texts),
        None => push_added(alloc, out, space, document, call, None, texts),
    }
}

fn push_found(out: &mut String, space: &TypeSpace<'_>, number: &str) -> Result<(), AllocError> {
    let Ok(number) = number.parse::<u32>() else {
        return out.push_str("no id");
    };
    match space.get_type(TypeId(number)) {
        Some(entry) => push_entry(out, entry),
        None => out.push_str("no entry"),
    }
}

// The place that a text without escapes tells.
fn place_of(alloc: Global, text: &str) -> Result<Location, AllocError> {
    let mut place = Location::root(alloc);
    for step in text.split('/').skip(1) {
        place = place.child(alloc, step)?;
    }
    Ok(place)
}

fn is_schema(document: &Document, at: &Location) -> bool
    ensures { result ≡ is_some (schema_at (document_seen document.now) at.now) }
{
    document.schema_at(at).is_some()
}

fn push_added(
    alloc: Global,
    out: &mut String,
    space: &mut TypeSpace<'_>,
    document: &Document,
    place: &str,
    name: Option<&str>,
    texts: &mut RegexTexts,
) -> Result<(), AllocError>
    requires begun { is_begun space.old ≡ true }
    requires document { document_in space.old ≡ document_seen document.now }
    ensures begun { is_begun space.new ≡ true }
    ensures document { document_in space.new ≡ document_seen document.now }
{
    let at = place_of(alloc, place)?;
    if is_schema(document, &at) {
        return match added(space, &at, name, texts) {
            Ok(id) => write!(out, "{}", id.0),
            Err(fault) => push_fault(alloc, out, &fault),
        };
    }
    out.push_str("no schema")
}

fn added(
    space: &mut TypeSpace<'_>,
    at: &Location,
    name: Option<&str>,
    texts: &mut RegexTexts,
) -> Result<TypeId, Fault>
    requires begun { is_begun space.old ≡ true }
    requires there { is_some (schema_at (document_in space.old) at.now) ≡ true }
    ensures begun { is_begun space.new ≡ true }
    ensures document { document_in space.new ≡ document_in space.old }
{
    match name {
        Some(name) => space.add_type_with_name(at, Some(name), texts),
        None => space.add_type(at, texts),
    }
}
