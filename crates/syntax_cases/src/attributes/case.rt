//! A case from a line, and the line that is printed of it.
use crate::attributes::attribute::{attribute_of, no_case};
use crate::attributes::numbers::Places;
use crate::attributes::readers::{read_container, read_field, read_variant};
use crate::attributes::receiver::replaced;
use crate::attributes::said::said_of;
use attr_parts::{RenameAllRules, RenameRule};
use rust_syntax::{Attribute, ParseFault};
use std::alloc::Global;

/// What the columns behind the first tell.
#[derive(Drop)]
pub(crate) struct Case {
    /// The attributes that are read.
    pub attrs: Vec<Attribute>,
    /// Those of the variant that holds a field.
    pub held: Vec<Attribute>,
    /// Whether the container of a field has a default.
    pub has_default: bool,
    /// The rules by which what was read is renamed.
    pub rules: Option<RenameAllRules>,
}

fn rule_of(text: &str) -> Result<RenameRule, ParseFault> {
    match text {
        "none" => Ok(RenameRule::None),
        _ => match RenameRule::from_str(text) {
            Ok(rule) => Ok(rule),
            Err(_) => Err(no_case()),
        },
    }
}

fn rules_of(text: &str) -> Result<RenameAllRules, ParseFault> {
    let (written, read) = words(text);
    Ok(RenameAllRules {
        serialize: rule_of(written)?,
        deserialize: rule_of(read)?,
    })
}

// What stands before the first space, and what stands behind it.
fn words(text: &str) -> (&str, &str) {
    match text.split_once(" ") {
        Some((first, rest)) => (first, rest),
        None => (text, ""),
    }
}

// The first column, and the others.
fn columns(line: &str) -> (&str, &str) {
    match line.split_once(" | ") {
        Some((first, rest)) => (first, rest),
        None => (line, ""),
    }
}

fn take_column(
    alloc: Global,
    case: &mut Case,
    text: &str,
    places: &mut Places,
) -> Result<(), ParseFault> {
    let (word, rest) = words(text);
    match word {
        "by" => case.rules = Some(rules_of(rest)?),
        "of" => {
            if rest == "default" {
                case.has_default = true;
            } else {
                case.held.push(attribute_of(alloc, rest, places)?)?;
            }
        }
        _ => case.attrs.push(attribute_of(alloc, text, places)?)?,
    }
    Ok(())
}

fn case_of(alloc: Global, text: &str) -> Result<Case, ParseFault> {
    let mut case = Case {
        attrs: Vec::new(alloc),
        held: Vec::new(alloc),
        has_default: false,
        rules: None,
    };
    let mut places = Places { last: 0 };
    for column in text.split(" | ") {
        if !column.is_empty() {
            take_column(alloc, &mut case, column, &mut places)?;
        }
    }
    Ok(case)
}

/// What is told of the case's attributes, and what they say; or what the words `receiver` and `kind` ask for.
pub(crate) fn answer(alloc: Global, line: &str) -> Result<String, ParseFault> {
    if let Some(item) = line.strip_prefix("receiver ") {
        return replaced(alloc, item);
    }
    match line.strip_prefix("kind ") {
        Some(kind) => said(alloc, kind),
        None => read(alloc, line),
    }
}

// What is said by a kind of diagnostic.
fn said(alloc: Global, kind: &str) -> Result<String, ParseFault> {
    match said_of(alloc, kind)? {
        Some(text) => Ok(text),
        None => Ok(String::from_str(alloc, "unknown")?),
    }
}

fn read(alloc: Global, line: &str) -> Result<String, ParseFault> {
    let (head, rest) = columns(line);
    let case = case_of(alloc, rest)?;
    let (kind, rest) = words(head);
    let (name, form) = words(rest);
    match kind {
        "variant" => read_variant(alloc, name, form, case),
        "field" => read_field(alloc, name, form, case),
        _ => read_container(alloc, kind, name, form, case),
    }
}
