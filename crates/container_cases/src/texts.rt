//! Items as text.
use crate::reading::tokens_of;
use case_items::item_of;
use item_texts::{item_text, replaced_text};
use rust_syntax::ParseFault;
use std::alloc::Global;

/// The text of the item, and that of its copy in which `Self` is replaced.
pub(crate) fn texts_answer(alloc: Global, text: &str) -> Result<String, ParseFault> {
    let tokens = tokens_of(alloc, text)?;
    let item = item_of(alloc, tokens.trees())?;
    let own = item_text(alloc, &item)?;
    let replaced = replaced_text(alloc, &item)?;
    let text = format!(in alloc; "{own} | {replaced}")?;
    Ok(text)
}
