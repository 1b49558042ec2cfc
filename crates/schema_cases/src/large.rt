//! Large documents and graphs.
use crate::document::ending;
use reference_graph::first_loop;
use std::alloc::{AllocError, Global};

/// What a large document is read as: `deep` or `wide`, with how many schemas it has.
pub(crate) fn large_text(alloc: Global, kind: &str, count: &str) -> Result<String, AllocError> {
    let Ok(count) = count.parse::<usize>() else {
        return String::from_str(alloc, "no number");
    };
    match kind {
        "deep" => ending(alloc, &deep(alloc, count)?),
        "wide" => ending(alloc, &wide(alloc, count)?),
        _ => String::from_str(alloc, "no case"),
    }
}

/// What a document with a chain of so many references is read as, the last of which refers to the definition of that name.
pub(crate) fn chain_text(alloc: Global, last: &str, count: &str) -> Result<String, AllocError> {
    match count.parse::<usize>() {
        Ok(count) => ending(alloc, &chain(alloc, count, last)?),
        Err(_) => String::from_str(alloc, "no number"),
    }
}

/// How many nodes the first loop of a chain of so many nodes has, or `-` where there is none: `chain`, `led`, in which one more node
/// refers to the first, or `round`, in which the last refers to the first.
pub(crate) fn nodes_text(alloc: Global, kind: &str, count: &str) -> Result<String, AllocError> {
    let Ok(count) = count.parse::<usize>() else {
        return String::from_str(alloc, "no number");
    };
    let edges = nodes(alloc, kind, count)?;
    match first_loop(alloc, &edges)? {
        Some(path) => {
            let length = path.len();
            format!(in alloc; "{length}")
        }
        None => String::from_str(alloc, "-"),
    }
}

// `not` in `not`, to that depth.
fn deep(alloc: Global, depth: usize) -> Result<String, AllocError> {
    let mut text = String::new(alloc);
    for _ in 0..depth {
        text.push_str("{\"not\":")?;
    }
    text.push_str("true")?;
    for _ in 0..depth {
        text.push_str("}")?;
    }
    Ok(text)
}

// As many properties, each with a schema.
fn wide(alloc: Global, count: usize) -> Result<String, AllocError> {
    let mut text = String::new(alloc);
    text.push_str("{\"properties\":{\"\":{}")?;
    for i in 0..count {
        let property = format!(in alloc; ",\"p{i}\":{{\"type\":\"string\"}}")?;
        text.push_str(&property)?;
    }
    text.push_str("}}")?;
    Ok(text)
}

// As many definitions, each but the last of which refers to the next, and the last to what is named.
fn chain(alloc: Global, count: usize, last: &str) -> Result<String, AllocError> {
    let mut text = String::new(alloc);
    text.push_str("{\"definitions\":{")?;
    for i in 0..count {
        let next = i + 1;
        let definition = format!(in alloc; "\"d{i}\":{{\"$ref\":\"#/definitions/d{next}\"}},")?;
        text.push_str(&definition)?;
    }
    let end = format!(in alloc;
        "\"d{count}\":{{\"not\":{{\"$ref\":\"#/definitions/{last}\"}}}},\"e\":true}}}}"
    )?;
    text.push_str(&end)?;
    Ok(text)
}

// Each node refers to the next.
fn nodes(alloc: Global, kind: &str, count: usize) -> Result<Vec<Vec<usize>>, AllocError> {
    let mut edges = Vec::new(alloc);
    for node in 1..count {
        edges.push(vec![in alloc; node]?)?;
    }
    match kind {
        "round" => edges.push(vec![in alloc; 0]?)?,
        "led" => {
            edges.push(Vec::new(alloc))?;
            edges.push(vec![in alloc; 0]?)?;
        }
        _ => edges.push(Vec::new(alloc))?,
    }
    Ok(edges)
}
