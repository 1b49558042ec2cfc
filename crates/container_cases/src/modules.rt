//! Modules of items are made, and what came of it is printed.
use crate::reading::{Marks, placed_item, show_told, tokens_of};
use attr_parts::NoCase;
use case_items::{no_case, ty_of};
use derive_model::{Module, ModuleError, Verdict};
use json_numbers::has_json_numbers;
use rust_syntax::{DeriveInput, ParseFault, Ty};
use schema_tree::{Constraint, Conversions, PlainTexts, Rule};
use serde_json::Value;
use std::alloc::{AllocError, Global};
use std::fmt::Write;

// What stands before the first colon, and what behind it.
fn cut(text: &str) -> (&str, &str) {
    match text.split_once(":") {
        Some((before, behind)) => (before, behind),
        None => (text, ""),
    }
}

fn size_of(text: &str) -> Option<u32> {
    match text.parse::<u32>() {
        Ok(size) => Some(size),
        Err(_) => None,
    }
}

// The texts between commas.
fn texts_of(alloc: Global, text: &str) -> Result<Vec<String>, AllocError> {
    let mut texts = Vec::new(alloc);
    for part in text.split(',') {
        if !part.is_empty() {
            texts.push(String::from_str(alloc, part)?)?;
        }
    }
    Ok(texts)
}

// The values between commas.
fn values_of(alloc: Global, text: &str) -> Result<Vec<Value>, ParseFault> {
    let mut values = Vec::new(alloc);
    for part in text.split(',') {
        if !part.is_empty() {
            let Ok(value) = Value::from_str(alloc, part) else {
                return Err(no_case());
            };
            values.push(value)?;
        }
    }
    Ok(values)
}

fn text_rule(alloc: Global, told: &str) -> Result<Rule, AllocError> {
    let (least, told) = cut(told);
    let (most, told) = cut(told);
    let (all, any) = cut(told);
    Ok(Rule::Text {
        least: size_of(least),
        most: size_of(most),
        all: texts_of(alloc, all)?,
        any: texts_of(alloc, any)?,
    })
}

fn rule_of(alloc: Global, word: &str) -> Result<Rule, ParseFault> {
    let (kind, told) = cut(word);
    match kind {
        "text" => Ok(text_rule(alloc, told)?),
        "allow" => Ok(Rule::Allow(values_of(alloc, told)?)),
        "deny" => Ok(Rule::Deny(values_of(alloc, told)?)),
        _ => Err(no_case()),
    }
}

/// Rules, as `S=text`, and a `d` for each stated default, with spaces between.
pub(crate) fn conversions_of(alloc: Global, words: &str) -> Result<Conversions, ParseFault> {
    let mut conversions = Conversions::new(alloc);
    for word in words.split(' ') {
        match word.split_once("=") {
            Some((item, rule)) => conversions.constraints.push(Constraint {
                item: String::from_str(alloc, item)?,
                rule: rule_of(alloc, rule)?,
            })?,
            None => {
                if word == "d" {
                    conversions.defaults.push(Value::Null)?;
                }
            }
        }
    }
    Ok(conversions)
}

/// Items, with ` ;; ` between them.
pub(crate) fn items_of(alloc: Global, text: &str) -> Result<Vec<DeriveInput>, ParseFault> {
    let mut items = Vec::new(alloc);
    for part in text.split(" ;; ") {
        items.push(placed_item(alloc, part)?)?;
    }
    Ok(items)
}

// Whether each of the types is known.
fn known_types(alloc: Global, module: &Module<'_>, types: &str) -> Result<String, ParseFault> {
    let mut out = String::from_str(alloc, "module")?;
    for text in types.split(" ;; ") {
        let tokens = tokens_of(alloc, text)?;
        let ty = ty_of(alloc, tokens.trees())?;
        if module.knows(&ty) {
            out.push_str(" known")?;
        } else {
            out.push_str(" unknown")?;
        }
    }
    Ok(out)
}

fn show_error(alloc: Global, error: ModuleError) -> Result<String, AllocError> {
    let mut out = String::new(alloc);
    match error {
        ModuleError::Memory => Err(AllocError),
        ModuleError::Diagnostics(told) => {
            show_told(&mut out, &told)?;
            Ok(out)
        }
        ModuleError::Form { item } => {
            write!(out, "form {item}")?;
            Ok(out)
        }
    }
}

/// What comes of the items: a module, in which types are known or not; or what is told of them; or the first that leaves the forms.
pub(crate) fn module_answer(alloc: Global, words: &str, text: &str) -> Result<String, ParseFault> {
    let Some((items, types)) = text.split_once(" | ") else {
        return Err(no_case());
    };
    let items = items_of(alloc, items)?;
    let conversions = conversions_of(alloc, words)?;
    match Module::new(alloc, &items, &conversions, &Marks) {
        Ok(module) => known_types(alloc, &module, types),
        Err(error) => Ok(show_error(alloc, error)?),
    }
}

fn shown(alloc: Global, verdict: &Verdict) -> Result<String, AllocError> {
    match verdict.refused() {
        Some(path) => {
            let place = path.text(alloc)?;
            format!(in alloc; "refused {place}")
        }
        None => String::from_str(alloc, "taken"),
    }
}

// What a module of the items, with no rule and no stated default, makes of a value.
fn judged(
    alloc: Global,
    items: &[DeriveInput],
    ty: &Ty,
    value: &Value,
) -> Result<String, ParseFault> {
    if !has_json_numbers(value) {
        return Ok(String::from_str(alloc, "other numbers")?);
    }
    let conversions = Conversions::new(alloc);
    let mut texts = PlainTexts::new(alloc);
    let Ok(module) = Module::new(alloc, items, &conversions, &NoCase) else {
        return Err(no_case());
    };
    match module.judge(ty, value, &mut texts) {
        Ok(verdict) => Ok(shown(alloc, &verdict)?),
        Err(_) => Err(ParseFault::Memory),
    }
}

/// Whether a module of the items takes a value as that type, or the place where reading stops.
pub(crate) fn value_answer(alloc: Global, ty: &str, text: &str) -> Result<String, ParseFault> {
    let Some((items, value)) = text.split_once(" | ") else {
        return Err(no_case());
    };
    let items = items_of(alloc, items)?;
    let tokens = tokens_of(alloc, ty)?;
    let ty = ty_of(alloc, tokens.trees())?;
    match Value::from_str(alloc, value) {
        Ok(value) => judged(alloc, &items, &ty, &value),
        Err(_) => Err(no_case()),
    }
}
