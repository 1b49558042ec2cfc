//! The texts that a schema states.
use serde_json::Value;
use serde_json::value::Map;
use std::alloc::{AllocError, Global};

/// The texts that stand in `enum`, `const`, `default` or `examples` of a schema document, at any depth of it and of what is
/// stated (JSON Schema Draft 7 validation, 6.1.2, 6.1.3, 10.2 and 10.4). A text that stands twice is found twice. It fails
/// where memory runs out.
pub fn listed_texts(alloc: Global, schema: &Value) -> Result<Vec<String>, AllocError> {
    let mut found = Vec::new(alloc);
    gather(&mut found, false, schema)?;
    Ok(found)
}

// Whether values are stated under the name.
fn states_values(name: &str) -> bool {
    match name {
        "enum" => true,
        "const" => true,
        "default" => true,
        "examples" => true,
        _ => false,
    }
}

// Adds the texts of a value that is stated, or else those that are stated in it.
#[cycle(gathering)]
fn gather(found: &mut Vec<String>, stated: bool, value: &Value) -> Result<(), AllocError> {
    match value {
        Value::String(text) => {
            if stated {
                found.push(text.clone()?)?;
            }
            Ok(())
        }
        Value::Array(items) => gather_items(found, stated, items),
        Value::Object(members) => gather_members(found, stated, members),
        _ => Ok(()),
    }
}

#[cycle(gathering)]
fn gather_items(
    found: &mut Vec<String>,
    stated: bool,
    items: &Vec<Value>,
) -> Result<(), AllocError> {
    for item in items {
        gather(found, stated, item)?;
    }
    Ok(())
}

#[cycle(gathering)]
fn gather_members(
    found: &mut Vec<String>,
    stated: bool,
    members: &Map<String, Value>,
) -> Result<(), AllocError> {
    for (name, value) in members.iter() {
        gather(found, stated | states_values(name), value)?;
    }
    Ok(())
}
