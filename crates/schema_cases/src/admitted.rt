//! Schemas, values, and which of the values each schema admits. Each line is one JSON object of a schema and
//! values; it is printed again, with `admitted` or `refused` behind it for each value, or with its fault.
//!
//! A line may also be `pattern` and a list of texts in JSON, a pattern and texts; it is printed with `none` behind it where the pattern
//! isn't plain, `refused` where `regex` doesn't build it, or else with `yes` or `no` for each text.
mod patterns;

use patterns::pattern_text;
use regex_texts::RegexTexts;
use run_input::input_parts;
use schema_admission::admits;
use schema_reading::document;
use schema_tree::TextFault;
use schema_types::{Document, Setting};
use serde_json::Value;
use std::alloc::{AllocError, Global};

/// What is admitted, or which texts have a pattern.
pub(crate) fn answer(
    alloc: Global,
    texts: &mut RegexTexts,
    line: &str,
) -> Result<String, AllocError> {
    if let Some(asked) = line.strip_prefix("pattern ") {
        return pattern_text(alloc, texts, asked);
    }
    let Ok(value) = Value::from_str(alloc, line) else {
        return String::from_str(alloc, "no JSON");
    };
    let Some(parts) = input_parts(&value) else {
        return String::from_str(alloc, "no case");
    };
    let Some(document) = document(alloc, parts.schema, Setting::Strict)? else {
        return String::from_str(alloc, "no document");
    };
    let mut shown = String::new(alloc);
    for value in parts.values {
        shown.push_str(verdict(alloc, &document, texts, value)?)?;
    }
    Ok(shown)
}

fn verdict(
    alloc: Global,
    document: &Document,
    texts: &mut RegexTexts,
    value: &Value,
) -> Result<&'static str, AllocError> {
    match admits(alloc, document, texts, value) {
        Ok(true) => Ok(" admitted"),
        Ok(false) => Ok(" refused"),
        Err(TextFault::Failed) => Ok(" failed"),
        Err(TextFault::Memory) => Err(AllocError),
    }
}
