//! Graphs by their rows.
use reference_graph::first_loop;
use std::alloc::{AllocError, Global};

// The graph of rows with spaces between them: the nodes that each node refers to, as digits, or `-` for none.
fn graph(alloc: Global, rows: &str) -> Result<Vec<Vec<usize>>, AllocError> {
    let mut edges = Vec::new(alloc);
    for row in rows.split_whitespace() {
        let mut targets = Vec::new(alloc);
        for digit in row.bytes() {
            if digit.is_ascii_digit() {
                targets.push(usize::from(digit.saturating_sub(b'0')))?;
            }
        }
        edges.push(targets)?;
    }
    Ok(edges)
}

/// The first loop of that graph, its nodes as digits, or `-` where there is none.
pub fn loop_of_rows(alloc: Global, rows: &str) -> Result<String, AllocError> {
    let edges = graph(alloc, rows)?;
    let Some(path) = first_loop(alloc, &edges)? else {
        return String::from_str(alloc, "-");
    };
    let mut text = String::new(alloc);
    for node in &path {
        text.push_str(format!(in alloc; "{node}")?.as_str())?;
    }
    Ok(text)
}
