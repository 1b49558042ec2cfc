//! Reads lines of three parts with tabs between them: how many steps walks may have, calls, and a schema document. What references lead
//! to is converted first. A call is the place of a schema, with a name behind a `=` where one is given; `?` and a number, for the entry of
//! that id; or `!` and a number, which ends the space with that id as the root. Printed are the line, what each call answers,
//! the entries, and in the end the items, the root's type, the numbers of constraints and of defaults, and the notes.
#![tactic(auto)]

mod calls;
mod ending;
mod entries;

use calls::{push_begin, push_calls};
use case_words::fault_text;
use ending::push_end;
use entries::push_entries;
use regex_texts::RegexTexts;
use schema_tree::Document;
use serde_json::Value;
use std::alloc::{AllocError, Global};
use typify_convert::TypeSpace;

fn main(rt: HostRuntime) -> Result<(), anyhow::Error> {
    let alloc = rt.alloc();
    let mut texts = RegexTexts::new(alloc);
    for line in rt.lines(alloc) {
        let line = line?;
        let found = answer(alloc, &line, &mut texts)?;
        println!(rt; "{line} => {found}")?;
    }
    Ok(())
}

fn answer(alloc: Global, line: &str, texts: &mut RegexTexts) -> Result<String, AllocError> {
    let Some((depth, rest)) = line.split_once('\t') else {
        return String::from_str(alloc, "no case");
    };
    let Some((calls, text)) = rest.split_once('\t') else {
        return String::from_str(alloc, "no case");
    };
    let Ok(depth) = depth.parse::<u32>() else {
        return String::from_str(alloc, "no depth");
    };
    let Ok(value) = Value::from_str(alloc, text) else {
        return String::from_str(alloc, "no JSON");
    };
    match Document::read(alloc, &value) {
        Ok(document) => grown(alloc, depth, calls, &document, texts),
        Err(fault) => fault_text(alloc, &fault),
    }
}

// The calls, and the id that the space ends with, where it does.
fn parts_of(calls: &str) -> (&str, Option<&str>) {
    match calls.split_once('!') {
        Some((calls, root)) => (calls, Some(root)),
        None => (calls, None),
    }
}

fn grown(
    alloc: Global,
    depth: u32,
    calls: &str,
    document: &Document,
    texts: &mut RegexTexts,
) -> Result<String, AllocError> {
    let (calls, root) = parts_of(calls);
    let mut out = String::new(alloc);
    let mut space = TypeSpace::new(alloc, document, depth);
    push_begin(alloc, &mut out, &mut space, texts)?;
    push_calls(alloc, &mut out, &mut space, document, calls, texts)?;
    push_entries(&mut out, &space)?;
    match root {
        Some(root) => push_end(alloc, &mut out, space, root, texts)?,
        None => {}
    }
    Ok(out)
}
