//! Cases of items: the lines of standard input, each of the table that the last line before it with `## ` names. For each a line is printed: of
//! `## containers` what an item is read as (reading.rt), of `## pieces` the tokens of a piece of an emitted item (pieces.rt).
#![tactic(auto)]

mod covering;
mod modules;
mod numbers;
mod pieces;
mod reading;
mod show;
mod texts;

use std::alloc::{AllocError, Global};
use std::process::ExitCode;

#[derive(Clone, Copy)]
enum Table {
    Containers,
    Pieces,
}

fn main(rt: HostRuntime) -> ExitCode {
    let alloc = rt.alloc();
    let mut table = Table::Containers;
    for line in rt.lines(alloc) {
        let Ok(line) = line else {
            return ExitCode::from(4);
        };
        let printed = match line.strip_prefix("## ") {
            Some(name) => {
                table = table_of(name);
                println!(rt; "{line}")
            }
            None => match answer(alloc, table, &line) {
                Ok(text) => println!(rt; "{text}"),
                Err(_) => return ExitCode::from(6),
            },
        };
        if printed.is_err() {
            return ExitCode::from(5);
        }
    }
    ExitCode::SUCCESS
}

fn table_of(name: &str) -> Table {
    match name {
        "pieces" => Table::Pieces,
        _ => Table::Containers,
    }
}

fn answer(alloc: Global, table: Table, line: &str) -> Result<String, AllocError> {
    match table {
        Table::Containers => match reading::answer(alloc, line) {
            Ok(text) => Ok(text),
            Err(_) => String::from_str(alloc, "unreadable"),
        },
        Table::Pieces => match pieces::piece_of(alloc, line)? {
            Some(text) => Ok(text),
            None => String::from_str(alloc, "unknown"),
        },
    }
}
