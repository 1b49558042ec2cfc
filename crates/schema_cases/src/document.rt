//! Schema documents and what they are read as.
use schema_tree::{Document, Fault, Location, Walk};
use serde_json::Value;
use std::alloc::{AllocError, Global};

/// The names of the document's definitions, or its fault.
pub(crate) fn document_text(alloc: Global, text: &str) -> Result<String, AllocError> {
    let Ok(value) = Value::from_str(alloc, text) else {
        return String::from_str(alloc, "no JSON");
    };
    match Document::read(alloc, &value) {
        Ok(document) => names_of(alloc, &document),
        Err(fault) => told(alloc, &fault),
    }
}

/// Whether it is read, or the line of its fault.
pub(crate) fn ending(alloc: Global, text: &str) -> Result<String, AllocError> {
    let Ok(value) = Value::from_str(alloc, text) else {
        return String::from_str(alloc, "no JSON");
    };
    match Document::read(alloc, &value) {
        Ok(_) => String::from_str(alloc, "read"),
        Err(fault) => line_of(alloc, &fault),
    }
}

// The line of a fault, without its line feed.
fn line_of(alloc: Global, fault: &Fault) -> Result<String, AllocError> {
    let line = fault.line(alloc)?;
    String::from_str(alloc, line.trim())
}

/// The line of want of memory, or of a walk without places.
pub(crate) fn line_text(alloc: Global, kind: &str) -> Result<String, AllocError> {
    line_of(alloc, &made_fault(alloc, kind))
}

fn made_fault(alloc: Global, kind: &str) -> Fault {
    match kind {
        "memory" => Fault::Memory,
        _ => Fault::Depth {
            walk: Walk {
                locations: Vec::new(alloc),
            },
        },
    }
}

fn names_of(alloc: Global, document: &Document) -> Result<String, AllocError> {
    let mut shown = String::from_str(alloc, "read")?;
    let mut names = document.names();
    while let Some(name) = names.next() {
        shown.push(' ')?;
        shown.push_str(name)?;
    }
    Ok(shown)
}

fn told(alloc: Global, fault: &Fault) -> Result<String, AllocError> {
    match fault {
        Fault::Malformed { path, keyword } => at(alloc, "malformed", path, keyword),
        Fault::MissingRef { path, name } => at(alloc, "missing", path, name),
        Fault::ExternalRef { path, name } => at(alloc, "external", path, name),
        Fault::Float { path } => at(alloc, "float", path, ""),
        Fault::Unguarded { walk } => round(alloc, walk),
        _ => fault.line(alloc),
    }
}

fn at(alloc: Global, word: &str, path: &Location, what: &str) -> Result<String, AllocError> {
    let path = path.text(alloc)?;
    format!(in alloc; "{word} {path} {what}")
}

fn round(alloc: Global, walk: &Walk) -> Result<String, AllocError> {
    let mut shown = String::from_str(alloc, "unguarded")?;
    for location in &walk.locations {
        shown.push(' ')?;
        shown.push_str(&location.text(alloc)?)?;
    }
    Ok(shown)
}
