//! Documents, places, names, numbers, schemas that are looked up, values by their lists, and graphs. Each line is a word and what it asks about, with tabs between them. The line is printed, and
//! behind it the answer:
//! - `document VALUE`: the names of the definitions, or the fault; `fault VALUE`: that it is read, or the fault's line;
//! - `line memory` and `line nowhere`: the lines of faults that no document has;
//! - `text STEPS`, `name TEXT` and `numbers VALUE`: a place's text, whether a name is kept, whether each number is an i64;
//! - `at STEPS DOCUMENT` and `to REFERENCE DOCUMENT`: what stands there, by its title;
//! - `keywords DOCUMENT`, `references DOCUMENT` and `copy DOCUMENT`: what the root holds, and whether copies of it are the same;
//! - `takes SCHEMA VALUE`: whether the root's lists take the value;
//! - `graph ROWS` and `nodes KIND COUNT`: the first loop of a graph, or how long that of a large one is;
//! - `large KIND COUNT` and `chain NAME COUNT`: what a large document is read as.
use crate::document::{document_text, ending, line_text};
use crate::graph::loop_of_rows;
use crate::keywords::{copy_text, keywords_text, references_text};
use crate::large::{chain_text, large_text, nodes_text};
use crate::place::place_text;
use crate::schema::{looked_up, referred_to, taken};
use schema_tree::{holds_i64_alone, is_kept_name};
use serde_json::Value;
use std::alloc::{AllocError, Global};

/// What the line asks.
pub(crate) fn answer(alloc: Global, line: &str) -> Result<String, AllocError> {
    let Some((word, asked)) = line.split_once('\t') else {
        return String::from_str(alloc, "no case");
    };
    match asked.split_once('\t') {
        None => answer_one(alloc, word, asked),
        Some((first, second)) => answer_two(alloc, word, first, second),
    }
}

fn answer_one(alloc: Global, word: &str, asked: &str) -> Result<String, AllocError> {
    match word {
        "document" => document_text(alloc, asked),
        "fault" => ending(alloc, asked),
        "line" => line_text(alloc, asked),
        "text" => place_text(alloc, asked),
        "name" => String::from_str(alloc, said(is_kept_name(asked))),
        "numbers" => numbers(alloc, asked),
        "graph" => loop_of_rows(alloc, asked),
        "keywords" => keywords_text(alloc, asked),
        "references" => references_text(alloc, asked),
        "copy" => copy_text(alloc, asked),
        _ => String::from_str(alloc, "no case"),
    }
}

fn answer_two(alloc: Global, word: &str, first: &str, second: &str) -> Result<String, AllocError> {
    match word {
        "at" => looked_up(alloc, first, second),
        "to" => referred_to(alloc, first, second),
        "takes" => taken(alloc, first, second),
        "large" => large_text(alloc, first, second),
        "chain" => chain_text(alloc, first, second),
        "nodes" => nodes_text(alloc, first, second),
        _ => String::from_str(alloc, "no case"),
    }
}

fn numbers(alloc: Global, text: &str) -> Result<String, AllocError> {
    match Value::from_str(alloc, text) {
        Ok(value) => String::from_str(alloc, said(holds_i64_alone(&value))),
        Err(_) => String::from_str(alloc, "no JSON"),
    }
}

fn said(so: bool) -> &'static str {
    if so { "yes" } else { "no" }
}
