//! Graphs with their parts and ends.
use anyhow::Error;
use std::alloc::Global;
use use_graph::{Next, leads, parts};

/// What is asked of the nodes behind the first bar.
pub(crate) fn answer(alloc: Global, line: &str) -> Result<String, Error> {
    match line.split_once("|") {
        Some(("parts ", rows)) => first_nodes(alloc, rows),
        Some(("leads ", nodes)) => answers(alloc, nodes),
        _ => Ok(String::from_str(alloc, " no case")?),
    }
}

// For each node the first one of its part.
fn first_nodes(alloc: Global, rows: &str) -> Result<String, Error> {
    let uses = uses_of(alloc, rows)?;
    let parts = parts(alloc, &uses)?;
    let mut text = String::new(alloc);
    for part in &parts {
        match parts.iter().position(|other| *other == *part) {
            Some(node) => text.push_str(&format!(in alloc; " {node}")?)?,
            None => text.push_str(" none")?,
        }
    }
    Ok(text)
}

fn uses_of(alloc: Global, rows: &str) -> Result<Vec<Vec<u32>>, Error> {
    let mut uses = Vec::new(alloc);
    for row in rows.split('|') {
        uses.push(numbers(alloc, row)?)?;
    }
    Ok(uses)
}

fn numbers(alloc: Global, row: &str) -> Result<Vec<u32>, Error> {
    let mut numbers = Vec::new(alloc);
    for word in row.split_whitespace() {
        if let Ok(number) = word.parse::<u32>() {
            numbers.push(number)?;
        }
    }
    Ok(numbers)
}

fn answers(alloc: Global, nodes: &str) -> Result<String, Error> {
    let mut next = Vec::new(alloc);
    for node in nodes.split('|') {
        next.push(next_of(node.trim()))?;
    }
    let answers = leads(alloc, &next)?;
    let mut text = String::new(alloc);
    for answer in &answers {
        text.push_str(if *answer { " yes" } else { " no" })?;
    }
    Ok(text)
}

fn next_of(word: &str) -> Next {
    match word.parse::<u32>() {
        Ok(number) => Next::To(number),
        Err(_) if word == "yes" => Next::Yes,
        Err(_) => Next::No,
    }
}
