//! Merges and subtractions. Each line of standard input is a call, how many steps walks may have, and a document, with spaces between them: `merge N DOCUMENT`
//! merges the members of the root's `allOf`, `subschemas N DOCUMENT` the root's other keywords with its subschemas, and `subtract N DOCUMENT` takes the root's `not`
//! away from the first member of its `allOf`; `roughly N DOCUMENT` says whether the first two members of the root's `allOf` are roughly alike. `chain N COUNT` merges so many objects with a
//! required property each, and `nested N COUNT` what so many definitions lead to, each by an `allOf`. The line is printed, and behind it the merged schema or `never` and each note behind a semicolon, or what is refused.
#![tactic(auto)]

mod calls;
mod long;
mod show;

use calls::{Call, answer};
use long::{Long, long_answer};
use serde_json::Value;
use std::alloc::{AllocError, Global};

fn main(rt: HostRuntime) -> Result<(), anyhow::Error> {
    let alloc = rt.alloc();
    for line in rt.lines(alloc) {
        let line = line?;
        let found = found(alloc, &line)?;
        println!(rt; "{line} => {found}")?;
    }
    Ok(())
}

fn found(alloc: Global, line: &str) -> Result<String, AllocError> {
    if let Some((long, depth, count)) = long_of(line) {
        return long_answer(alloc, long, depth, count);
    }
    match case_of(line) {
        Some((call, depth, text)) => match Value::from_str(alloc, text) {
            Ok(value) => answer(alloc, call, depth, &value),
            Err(_) => String::from_str(alloc, "no JSON"),
        },
        None => String::from_str(alloc, "no case"),
    }
}

// What is made, how many steps walks may have, and how many.
fn long_of(line: &str) -> Option<(Long, u32, u32)> {
    let (word, rest) = line.split_once(" ")?;
    let (number, count) = rest.split_once(" ")?;
    let depth = number.parse::<u32>().ok()?;
    let count = count.parse::<u32>().ok()?;
    let long = long_by(word)?;
    Some((long, depth, count))
}

fn long_by(word: &str) -> Option<Long> {
    match word {
        "chain" => Some(Long::Chain),
        "nested" => Some(Long::Nested),
        _ => None,
    }
}

// The call, how many steps walks may have, and the document.
fn case_of(line: &str) -> Option<(Call, u32, &str)> {
    let (word, rest) = line.split_once(" ")?;
    let (number, text) = rest.split_once(" ")?;
    let depth = number.parse::<u32>().ok()?;
    let call = call_of(word)?;
    Some((call, depth, text))
}

fn call_of(word: &str) -> Option<Call> {
    match word {
        "merge" => Some(Call::Merge),
        "subschemas" => Some(Call::Subschemas),
        "subtract" => Some(Call::Subtract),
        "roughly" => Some(Call::Roughly),
        _ => None,
    }
}
