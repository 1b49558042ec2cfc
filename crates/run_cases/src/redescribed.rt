//! Items that are described, and the description examined.
use crate::report_text;
use case_items::{item_of, no_case, ty_of};
use item_texts::item_text;
use model_describe::DescribeError;
use model_redescribe::{RedescribeError, redescribe};
use run_input::input_value;
use rust_syntax::{DeriveInput, ParseFault, Ty};
use rust_tokens::{LexError, Span, TokenStream, lex};
use schema_tree::Conversions;
use serde_json::Value;
use std::alloc::{AllocError, Global};
use typify_run::{RegexTexts, Report};

fn tokens_of(alloc: Global, text: &str) -> Result<TokenStream, ParseFault> {
    match lex(alloc, text, Span::call_site()) {
        Ok(tokens) => Ok(tokens),
        Err(LexError::Memory) => Err(ParseFault::Memory),
        Err(LexError::Bad { .. }) => Err(no_case()),
    }
}

fn items_of(alloc: Global, text: &str) -> Result<Vec<DeriveInput>, ParseFault> {
    let mut items = Vec::new(alloc);
    for part in text.split(" ;; ") {
        let tokens = tokens_of(alloc, part)?;
        items.push(item_of(alloc, tokens.trees())?)?;
    }
    Ok(items)
}

// That items have no description, with the place of the item that keeps them from it.
fn undescribed(alloc: Global, error: &DescribeError) -> Result<String, AllocError> {
    match error {
        DescribeError::NotPlain { item } => match item {
            Some(item) => format!(in alloc; "not plain {item}"),
            None => String::from_str(alloc, "not plain"),
        },
        DescribeError::Memory => Err(AllocError),
    }
}

// What a report says, and its items.
fn with_items(alloc: Global, report: &Report) -> Result<String, AllocError> {
    let mut text = report_text(alloc, report)?;
    for item in &report.items {
        text.push_str(" | ")?;
        text.push_str(&item_text(alloc, item)?)?;
    }
    Ok(text)
}

// What the examination of their description gives, where no rule and no default is stated.
fn examined_text(
    alloc: Global,
    items: &[DeriveInput],
    root: &Ty,
    values: &[Value],
) -> Result<String, AllocError> {
    let conversions = Conversions::new(alloc);
    let mut texts = RegexTexts::new(alloc);
    match redescribe(alloc, items, &conversions, root, values, &mut texts) {
        Ok(report) => with_items(alloc, &report),
        Err(RedescribeError::Describe(error)) => undescribed(alloc, &error),
        Err(RedescribeError::Examine(_)) => String::from_str(alloc, "a fault"),
    }
}

fn answer(alloc: Global, root: &str, input: &str) -> Result<String, ParseFault> {
    let Some((items, values)) = input.split_once(" | ") else {
        return Err(no_case());
    };
    let items = items_of(alloc, items)?;
    let tokens = tokens_of(alloc, root)?;
    let root = ty_of(alloc, tokens.trees())?;
    let Ok(values) = input_value(alloc, values.as_bytes()) else {
        return Err(no_case());
    };
    match &values {
        Value::Array(values) => Ok(examined_text(alloc, &items, &root, values)?),
        _ => Err(no_case()),
    }
}

/// Of items with ` ;; ` between them, and a list of values behind ` | `: how many items the examination of their description gives, how many
/// notes, whether each value is taken, and those items; or that the items that were handed in have no description.
pub(crate) fn redescription(alloc: Global, root: &str, input: &str) -> Result<String, AllocError> {
    match answer(alloc, root, input) {
        Ok(text) => Ok(text),
        Err(_) => String::from_str(alloc, "no case"),
    }
}
