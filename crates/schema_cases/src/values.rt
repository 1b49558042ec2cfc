//! Values read as types, and written again. A line is an object of items, rules and stated defaults, which
//! bind the lines behind it; or a list of a type and a value, for which a line is printed: what the value is written as once
//! it was read, or the place where reading stops.
mod parts;
mod tables;
mod types;

use regex_texts::RegexTexts;
use schema_tree::{Conversions, TextFault};
use serde_json::Value;
use std::alloc::{AllocError, Global};
pub(crate) use tables::Tables;
use tables::tables_of;
use types::type_of;
use value_models::{Containers, Typed, ValueType};
use value_reading::{Outcome, read};
use value_writing::write;

/// No items, rules and stated defaults.
pub(crate) fn no_tables(alloc: Global) -> Result<Tables, AllocError> {
    Ok(Tables {
        containers: Containers::new(alloc, Vec::new(alloc))?,
        conversions: Conversions::new(alloc),
    })
}

/// What is printed for a line, if anything is; an object binds the lines behind it.
pub(crate) fn answer(
    alloc: Global,
    tables: &mut Tables,
    texts: &mut RegexTexts,
    line: &str,
) -> Result<Option<String>, AllocError> {
    let Ok(value) = Value::from_str(alloc, line) else {
        return Ok(Some(String::from_str(alloc, "no JSON")?));
    };
    match &value {
        Value::Array(parts) => Ok(Some(found(alloc, tables, texts, parts)?)),
        _ => {
            *tables = tables_of(alloc, &value)?;
            Ok(None)
        }
    }
}

fn found(
    alloc: Global,
    tables: &Tables,
    texts: &mut RegexTexts,
    parts: &[Value],
) -> Result<String, AllocError> {
    match parts {
        [ty, value] => {
            let ty = type_of(alloc, ty)?;
            let shown = verdict(alloc, tables, texts, &ty, value)?;
            Ok(shown)
        }
        _ => String::from_str(alloc, "no case"),
    }
}

fn verdict(
    alloc: Global,
    tables: &Tables,
    texts: &mut RegexTexts,
    ty: &ValueType,
    value: &Value,
) -> Result<String, AllocError> {
    match read(
        alloc,
        &tables.containers,
        &tables.conversions,
        texts,
        ty,
        value,
    ) {
        Ok(outcome) => shown(alloc, tables, ty, outcome),
        Err(TextFault::Failed) => String::from_str(alloc, "failed"),
        Err(TextFault::Memory) => Err(AllocError),
    }
}

fn shown(
    alloc: Global,
    tables: &Tables,
    ty: &ValueType,
    outcome: Outcome<Typed>,
) -> Result<String, AllocError> {
    match outcome {
        Outcome::Taken(typed) => {
            let written = write(alloc, &tables.containers, &typed, ty)?;
            let text = written.to_string(alloc)?;
            format!(in alloc; "taken {text}")
        }
        Outcome::Refused(place) => {
            let text = place.text(alloc)?;
            format!(in alloc; "refused {text}")
        }
        Outcome::Unsound => String::from_str(alloc, "unsound"),
    }
}
