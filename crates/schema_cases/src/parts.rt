//! Small parts by their cases. Of each line the first word says what the rest of it asks:
//! - `format`: a format's name, a space and a text: whether the text has the format;
//! - `plain`: a pattern, a space and a text: whether the judge without patterns takes the pattern for one, says that the text has it, and
//!   takes the text for a date;
//! - `whole`: a text, whose whole numbers are rewritten;
//! - `name`: the words before `?` are entered in a table one after another, each with its number from 0, and those after it are looked up;
//! - `graph`: what is asked, and behind bars the nodes: those that each one uses, or `yes`, `no` or the node that it goes on to. Of the
//!   `parts` the first node of each node's part is written, of what `leads` to an end what that says;
//! - `large`: what is made large and counted.
//!
//! The line is printed, and behind it the answer.

mod formats;
mod graphs;
mod large;
mod names;
mod wholes;

use anyhow::Error;
use std::alloc::Global;

/// What the line asks.
pub(crate) fn answer(alloc: Global, line: &str) -> Result<String, Error> {
    let Some((word, asked)) = line.split_once(' ') else {
        return no_case(alloc);
    };
    match word {
        "format" => Ok(String::from_str(alloc, formats::answer(asked))?),
        "plain" => Ok(formats::judged(alloc, asked)?),
        "whole" => Ok(wholes::rewritten(alloc, asked)?),
        "name" => names::found(alloc, asked),
        "graph" => graphs::answer(alloc, asked),
        "large" => counted(alloc, asked),
        _ => no_case(alloc),
    }
}

fn counted(alloc: Global, asked: &str) -> Result<String, Error> {
    match asked {
        "digits" => Ok(wholes::large(alloc, b'1')?),
        "quotes" => Ok(wholes::large(alloc, b'"')?),
        "backslashes" => Ok(wholes::large(alloc, b'\\')?),
        "points" => Ok(wholes::large(alloc, b'.')?),
        "names" => names::missed_text(alloc),
        "uses" => large::uses_text(alloc),
        "ways" => large::ways_text(alloc),
        _ => no_case(alloc),
    }
}

fn no_case(alloc: Global) -> Result<String, Error> {
    Ok(String::from_str(alloc, " no case")?)
}
