//! Patterns and the texts that have them.
use regex_texts::RegexTexts;
use schema_tree::{TextFault, Texts};
use serde_json::Value;
use std::alloc::{AllocError, Global};

/// What is said of a list of a pattern and texts.
pub(crate) fn pattern_text(
    alloc: Global,
    texts: &mut RegexTexts,
    line: &str,
) -> Result<String, AllocError> {
    let answers = answers(alloc, texts, line)?;
    format!(in alloc; " {answers}")
}

fn answers(alloc: Global, texts: &mut RegexTexts, line: &str) -> Result<String, AllocError> {
    let Ok(value) = Value::from_str(alloc, line) else {
        return String::from_str(alloc, "no JSON");
    };
    let Value::Array(words) = &value else {
        return String::from_str(alloc, "no list");
    };
    match words.split_first() {
        Some((Value::String(pattern), rest)) => judged(alloc, texts, pattern, rest),
        _ => String::from_str(alloc, "no pattern"),
    }
}

fn judged(
    alloc: Global,
    texts: &mut RegexTexts,
    pattern: &str,
    words: &[Value],
) -> Result<String, AllocError> {
    match texts.is_pattern(pattern) {
        Ok(true) => {}
        Ok(false) => return String::from_str(alloc, "none"),
        Err(TextFault::Failed) => return String::from_str(alloc, "refused"),
        Err(TextFault::Memory) => return Err(AllocError),
    }
    let mut told = String::new(alloc);
    for word in words {
        if !told.is_empty() {
            told.push(' ')?;
        }
        told.push_str(answer(texts, pattern, word)?)?;
    }
    Ok(told)
}

fn answer(texts: &mut RegexTexts, pattern: &str, word: &Value) -> Result<&'static str, AllocError> {
    let Value::String(text) = word else {
        return Ok("?");
    };
    match texts.has_pattern(pattern, text) {
        Ok(true) => Ok("yes"),
        Ok(false) => Ok("no"),
        Err(TextFault::Failed) => Ok("refused"),
        Err(TextFault::Memory) => Err(AllocError),
    }
}
