//! How whole numbers are rewritten.
use std::alloc::{AllocError, Global};
use whole_numbers::whole_numbers;

const LARGE: usize = 16_777_216;

/// The bytes of the line, rewritten.
pub(crate) fn rewritten(alloc: Global, line: &str) -> Result<String, AllocError> {
    let bytes = whole_numbers(alloc, line.as_bytes())?;
    match String::from_utf8(bytes) {
        Ok(text) => format!(in alloc; " {text}"),
        Err(_) => String::from_str(alloc, " no text"),
    }
}

/// How many bytes that many of one byte become.
pub(crate) fn large(alloc: Global, byte: u8) -> Result<String, AllocError> {
    let bytes = vec![in alloc; byte; LARGE]?;
    let rewritten = whole_numbers(alloc, &bytes)?;
    let count = rewritten.len();
    format!(in alloc; " {LARGE} become {count}")
}
