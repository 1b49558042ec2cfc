//! Cases of documents and values, and of what they are made of: the lines of standard input, each of the table that the last line before it with `## ` names. For
//! each a line is printed.
//!
//! - `## schemas`: documents, places and graphs (schemas.rt);
//! - `## parts`: formats, whole numbers, names and graphs (parts.rt);
//! - `## streams`: sources and sinks (streams.rt);
//! - `## enums`: what is told of members of `anyOf` (enums.rt);
//! - `## values`: values that are read as types, and written again (values.rt);
//! - `## admission`: values that schemas admit, and texts that have patterns (admitted.rt).
//!
//! Behind a name `long` says that these lines take a build without proofs too long.
#![tactic(auto)]

mod admitted;
mod document;
mod enums;
mod graph;
mod keywords;
mod large;
mod parts;
mod place;
mod schema;
mod schemas;
mod streams;
mod values;

use anyhow::Error;
use regex_texts::RegexTexts;
use std::alloc::Global;
use values::{Tables, no_tables};

#[derive(Clone, Copy)]
enum Table {
    Schemas,
    Parts,
    Streams,
    Enums,
    Values,
    Admission,
}

fn main(rt: HostRuntime) -> Result<(), Error> {
    let alloc = rt.alloc();
    let mut table = Table::Schemas;
    let mut texts = RegexTexts::new(alloc);
    let mut tables = no_tables(alloc)?;
    for line in rt.lines(alloc) {
        let line = line?;
        match line.strip_prefix("## ") {
            Some(name) => {
                table = table_of(name);
                println!(rt; "{line}")?;
            }
            None => {
                if let Some(found) = answer(alloc, table, &mut texts, &mut tables, &line)? {
                    println!(rt; "{found}")?;
                }
            }
        }
    }
    Ok(())
}

fn table_of(name: &str) -> Table {
    match name {
        "parts" | "parts long" => Table::Parts,
        "streams" => Table::Streams,
        "enums" | "enums long" => Table::Enums,
        "values" => Table::Values,
        "admission" => Table::Admission,
        _ => Table::Schemas,
    }
}

// The line that is printed, if one is.
fn answer(
    alloc: Global,
    table: Table,
    texts: &mut RegexTexts,
    tables: &mut Tables,
    line: &str,
) -> Result<Option<String>, Error> {
    match table {
        Table::Values => Ok(values::answer(alloc, tables, texts, line)?),
        Table::Enums => Ok(Some(enums::answer(alloc, line)?)),
        _ => Ok(Some(behind(alloc, table, texts, line)?)),
    }
}

// The line, and the answer behind an arrow.
fn behind(
    alloc: Global,
    table: Table,
    texts: &mut RegexTexts,
    line: &str,
) -> Result<String, Error> {
    match table {
        Table::Parts => {
            let found = parts::answer(alloc, line)?;
            Ok(format!(in alloc; "{line} =>{found}")?)
        }
        Table::Admission => {
            let found = admitted::answer(alloc, texts, line)?;
            Ok(format!(in alloc; "{line} =>{found}")?)
        }
        Table::Streams => {
            let found = streams::answer(alloc, line)?;
            Ok(format!(in alloc; "{line} => {found}")?)
        }
        _ => {
            let found = schemas::answer(alloc, line)?;
            Ok(format!(in alloc; "{line} => {found}")?)
        }
    }
}
