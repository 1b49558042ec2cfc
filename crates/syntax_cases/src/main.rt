//! Cases of what reads Rust's syntax: the lines of standard input, each of the table that the last line before it with `## ` names. A line is printed for each.
//!
//! - `## texts`: a line is a word and a string literal: `tokens`, `text`, `type`, `path`, `expr_path`, `where` or `lifetimes`, and the text. It is printed
//!   again, with what the text is read as behind it. Of what is nested deep a line has the word `deep`, for a type, or `brackets`, for tokens, how often to
//!   repeat, and a literal `BEFORE|INNERMOST|BEHIND`; behind it stands whether it is taken. `metas` is what a cursor over the metas of the text answers, and
//!   `memory` what want of memory is printed as.
//! - `## attributes`: attributes of an owner, kinds of diagnostics, and items with `Self` replaced (attributes.rt).
//!
//! Behind a name `long` says that these lines take a build without proofs too long.
#![tactic(auto)]

mod attributes;
mod deep;
mod metas;
mod reading;
mod show;
mod tokens;

use std::alloc::{AllocError, Global};

#[derive(Clone, Copy)]
enum Table {
    Texts,
    Attributes,
}

fn main(rt: HostRuntime) -> Result<(), anyhow::Error> {
    let alloc = rt.alloc();
    let mut table = Table::Texts;
    for line in rt.lines(alloc) {
        let line = line?;
        match line.strip_prefix("## ") {
            Some(name) => {
                table = table_of(name);
                println!(rt; "{line}")?;
            }
            None => {
                let found = answer(alloc, table, &line)?;
                println!(rt; "{found}")?;
            }
        }
    }
    Ok(())
}

fn table_of(name: &str) -> Table {
    match name {
        "attributes" => Table::Attributes,
        _ => Table::Texts,
    }
}

fn answer(alloc: Global, table: Table, line: &str) -> Result<String, AllocError> {
    match table {
        Table::Texts => {
            let found = reading::answer(alloc, line)?;
            format!(in alloc; "{line} => {found}")
        }
        Table::Attributes => match attributes::answer(alloc, line) {
            Ok(text) => Ok(text),
            Err(_) => String::from_str(alloc, "unreadable"),
        },
    }
}
