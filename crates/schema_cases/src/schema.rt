//! Schemas of documents: by place and by reference, and the values that their lists take.
use crate::place::place;
use schema_tree::{Document, Schema, value_validate};
use serde_json::Value;
use std::alloc::{AllocError, Global};

// The title of a schema that was found.
fn title(found: Option<&Schema>) -> &str {
    match found {
        None => "nothing",
        Some(Schema::Bool(_)) => "boolean",
        Some(Schema::Object(object)) => match &object.title {
            None => "untitled",
            Some(title) => title.as_str(),
        },
    }
}

/// The document that a text is read as.
pub(crate) fn document(alloc: Global, text: &str) -> Option<Document> {
    match Value::from_str(alloc, text) {
        Ok(value) => Document::read(alloc, &value).ok(),
        Err(_) => None,
    }
}

/// The title of what stands at a place of a document.
pub fn looked_up(alloc: Global, steps: &str, text: &str) -> Result<String, AllocError> {
    let at = place(alloc, steps)?;
    match document(alloc, text) {
        Some(document) => String::from_str(alloc, title(document.schema_at(&at))),
        None => String::from_str(alloc, "no document"),
    }
}

/// The title of what a reference leads to in a document, and where it stands.
pub fn referred_to(alloc: Global, reference: &str, text: &str) -> Result<String, AllocError> {
    let Some(document) = document(alloc, text) else {
        return String::from_str(alloc, "no document");
    };
    let mut answer = String::from_str(alloc, title(document.target(reference)))?;
    if let Some(at) = document.parts().target_location(alloc, reference)? {
        let place = at.text(alloc)?;
        answer.push_str(" at ")?;
        answer.push_str(place.as_str())?;
    }
    Ok(answer)
}

/// Whether the root's `type`, `enum` and `const` take a value, and whether a copy of the root is the same.
pub fn taken(alloc: Global, text: &str, value: &str) -> Result<String, AllocError> {
    let Some(document) = document(alloc, text) else {
        return String::from_str(alloc, "no document");
    };
    let Ok(value) = Value::from_str(alloc, value) else {
        return String::from_str(alloc, "no JSON");
    };
    let copy = document.root().try_clone(alloc)?;
    if !copy.same(document.root()) {
        return String::from_str(alloc, "another copy");
    }
    let takes = value_validate(&copy, &value);
    String::from_str(alloc, if takes { "yes" } else { "no" })
}
