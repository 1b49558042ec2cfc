//! Documents, one a line, and what is told of the members of `anyOf` at the root of each: whether they are an option, their external, internal and
//! adjacent shapes, whether they are exclusive, and the kinds that each leaves open. A case that holds something is written with `+`, and a closed one with `!`.
use crate::schema::document;
use schema_tree::{Document, Schema};
use std::alloc::{AllocError, Global};
use typify_enums::{
    Case, InternalCase, KindSet, adjacent_shape, exclusive, external_shape, internal_shape, kinds,
    option_shape,
};

/// What is told of the document of a line.
pub(crate) fn answer(alloc: Global, line: &str) -> Result<String, AllocError> {
    match document(alloc, line) {
        Some(document) => line_of(alloc, &document),
        None => String::from_str(alloc, "no document"),
    }
}

// What is told of the members of `anyOf` at the root.
fn line_of(alloc: Global, document: &Document) -> Result<String, AllocError> {
    let mut line = String::new(alloc);
    let members = members_of(document.root());
    push_option(&mut line, members)?;
    push_external(alloc, &mut line, members)?;
    push_internal(alloc, &mut line, members)?;
    push_adjacent(alloc, &mut line, members)?;
    line.push_str(" | exclusive ")?;
    line.push_str(yes_or_no(exclusive(document, members)))?;
    line.push_str(" | kinds")?;
    for schema in members {
        line.push_str(" ")?;
        push_kinds(&mut line, kinds(document, schema))?;
    }
    Ok(line)
}

fn members_of(schema: &Schema) -> &[Schema] {
    match schema {
        Schema::Bool(_) => &[],
        Schema::Object(object) => match &object.subschemas {
            Some(subschemas) => match &subschemas.any_of {
                Some(members) => members.as_slice(),
                None => &[],
            },
            None => &[],
        },
    }
}

fn yes_or_no(holds: bool) -> &'static str {
    if holds { "yes" } else { "no" }
}

fn push_option(line: &mut String, members: &[Schema]) -> Result<(), AllocError> {
    line.push_str("option ")?;
    line.push_str(yes_or_no(option_shape(members).is_some()))
}

fn push_name(line: &mut String, name: &str, holds: bool, closed: bool) -> Result<(), AllocError> {
    line.push_str(" ")?;
    line.push_str(name)?;
    if holds {
        line.push_str("+")?;
    }
    if closed {
        line.push_str("!")?;
    }
    Ok(())
}

fn push_cases(line: &mut String, cases: &Vec<Case<'_>>) -> Result<(), AllocError> {
    for case in cases {
        push_name(line, case.name, case.content.is_some(), case.closed)?;
    }
    Ok(())
}

fn push_external(alloc: Global, line: &mut String, members: &[Schema]) -> Result<(), AllocError> {
    line.push_str(" | external ")?;
    match external_shape(alloc, members)? {
        Some(cases) => {
            line.push_str("yes")?;
            push_cases(line, &cases)
        }
        None => line.push_str("no"),
    }
}

fn push_internal_cases(line: &mut String, cases: &Vec<InternalCase<'_>>) -> Result<(), AllocError> {
    for case in cases {
        push_name(line, case.name, false, case.closed)?;
    }
    Ok(())
}

fn push_internal(alloc: Global, line: &mut String, members: &[Schema]) -> Result<(), AllocError> {
    line.push_str(" | internal ")?;
    match internal_shape(alloc, members)? {
        Some(shape) => {
            line.push_str("yes ")?;
            line.push_str(shape.tag)?;
            line.push_str(":")?;
            push_internal_cases(line, &shape.cases)
        }
        None => line.push_str("no"),
    }
}

fn push_adjacent(alloc: Global, line: &mut String, members: &[Schema]) -> Result<(), AllocError> {
    line.push_str(" | adjacent ")?;
    match adjacent_shape(alloc, members)? {
        Some(shape) => {
            line.push_str("yes ")?;
            line.push_str(shape.tag)?;
            line.push_str(" ")?;
            line.push_str(shape.content)?;
            line.push_str(":")?;
            push_cases(line, &shape.cases)
        }
        None => line.push_str("no"),
    }
}

fn push_kinds(line: &mut String, kinds: KindSet) -> Result<(), AllocError> {
    let letters = [
        (kinds.null, "n"),
        (kinds.boolean, "b"),
        (kinds.number, "i"),
        (kinds.string, "s"),
        (kinds.array, "a"),
        (kinds.object, "o"),
    ];
    let mut empty = true;
    for (there, letter) in letters {
        if there {
            line.push_str(letter)?;
            empty = false;
        }
    }
    if empty {
        line.push_str("-")?;
    }
    Ok(())
}
