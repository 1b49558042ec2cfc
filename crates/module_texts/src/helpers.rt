//! The module `typify_present`: what attributes name, and what conversions ask.
ghost use Rattle.std.specs.Prelude.{◌≡◌, ◌++◌, OnOk, string_bytes, length, not, nat_eq, if◌then◌else◌, []};
ghost use Rattle.module_texts.specs.Helpers.{any_patterns, asks_patterns as asks_patterns_of, helpers_text};

use conversion_table::{Constraint, Rule};
use std::alloc::AllocError;

const PRESENT: &str = "
#![allow(dead_code, non_camel_case_types, non_snake_case)]

mod typify_present {
    use serde::{Deserialize, Deserializer};

    // A member that is there is read as the type, so that null is refused where the type refuses it.
    pub fn some<'de, D, T>(from: D) -> Result<Option<T>, D::Error>
    where
        D: Deserializer<'de>,
        T: Deserialize<'de>,
    {
        T::deserialize(from).map(Some)
    }

    // The member has to be there, and null is none.
    pub fn whole<'de, D, T>(from: D) -> Result<T, D::Error>
    where
        D: Deserializer<'de>,
        T: Deserialize<'de>,
    {
        T::deserialize(from)
    }
";

const RULES: &str = "
    pub fn at_least(text: &str, least: usize) -> Result<(), String> {
        if text.chars().count() < least {
            return Err(format!(\"shorter than {least} characters\"));
        }
        Ok(())
    }

    pub fn at_most(text: &str, most: usize) -> Result<(), String> {
        if text.chars().count() > most {
            return Err(format!(\"longer than {most} characters\"));
        }
        Ok(())
    }

    pub fn listed<T: serde::Serialize>(value: &T, values: &str) -> Result<(), String> {
        if is_in(value, values)? {
            return Ok(());
        }
        Err(format!(\"not one of {values}\"))
    }

    pub fn not_listed<T: serde::Serialize>(value: &T, values: &str) -> Result<(), String> {
        if is_in(value, values)? {
            return Err(format!(\"one of {values}\"));
        }
        Ok(())
    }

    fn is_in<T: serde::Serialize>(value: &T, values: &str) -> Result<bool, String> {
        let value = serde_json::to_value(value).map_err(|error| error.to_string())?;
        let values: Vec<serde_json::Value> =
            serde_json::from_str(values).map_err(|error| error.to_string())?;
        Ok(values.contains(&value))
    }
";

const PATTERNS: &str = "
    pub fn has(text: &str, pattern: &'static str) -> Result<(), String> {
        if is_found(text, pattern)? {
            return Ok(());
        }
        Err(format!(\"nothing in it is {pattern}\"))
    }

    pub fn lacks(text: &str, pattern: &'static str) -> Result<(), String> {
        if is_found(text, pattern)? {
            return Err(format!(\"something in it is {pattern}\"));
        }
        Ok(())
    }

    pub fn has_one(text: &str, patterns: &[&'static str]) -> Result<(), String> {
        for pattern in patterns {
            if is_found(text, pattern)? {
                return Ok(());
            }
        }
        Err(format!(\"nothing in it is one of {patterns:?}\"))
    }

    // Of each pattern what is searched for, and whether it is to be found.
    pub fn has_one_where(text: &str, patterns: &[&[(&'static str, bool)]]) -> Result<(), String> {
        for pattern in patterns {
            if are_met(text, pattern)? {
                return Ok(());
            }
        }
        Err(format!(\"nothing in it is one of {patterns:?}\"))
    }

    fn are_met(text: &str, searches: &[(&'static str, bool)]) -> Result<bool, String> {
        for (pattern, wanted) in searches {
            if is_found(text, pattern)? != *wanted {
                return Ok(false);
            }
        }
        Ok(true)
    }

    fn is_found(text: &str, pattern: &'static str) -> Result<bool, String> {
        use std::cell::RefCell;
        use std::collections::HashMap;

        thread_local! {
            static KNOWN: RefCell<HashMap<&'static str, ::regex::Regex>> = RefCell::default();
        }
        KNOWN.with_borrow_mut(|known| {
            if let Some(regex) = known.get(pattern) {
                return Ok(regex.is_match(text));
            }
            let regex = ::regex::Regex::new(pattern).map_err(|error| error.to_string())?;
            let is_match = regex.is_match(text);
            known.insert(pattern, regex);
            Ok(is_match)
        })
    }
";

fn asks_patterns(rule: &Rule) -> bool
    ensures { result ≡ asks_patterns_of rule.now }
{
    match rule {
        Rule::Text { all, any, .. } => !(all.is_empty() && any.is_empty()),
        Rule::Allow(_) | Rule::Deny(_) => false,
    }
}

fn any_asks(constraints: &[Constraint]) -> bool
    ensures { result ≡ any_patterns constraints.now }
{
    for constraint in constraints {
        if asks_patterns(&constraint.rule) {
            return true;
        }
    }
    false
}

fn has_rules(constraints: &[Constraint]) -> bool
    ensures { result ≡ not (nat_eq (length constraints.now) 0) }
{
    !constraints.is_empty()
}

fn push_if(out: &mut String, holds: bool, text: &str) -> Result<(), AllocError>
    ensures { OnOk result (string_bytes out.new ≡ string_bytes out.old ++ (if holds then text.now else [])) }
{
    if holds {
        out.push_str(text)?;
    }
    Ok(())
}

/// Appends the module.
pub(crate) fn push_helpers(out: &mut String, constraints: &[Constraint]) -> Result<(), AllocError>
    ensures { OnOk result (string_bytes out.new ≡ string_bytes out.old ++ helpers_text constraints.now) }
{
    out.push_str(PRESENT)?;
    push_if(out, has_rules(constraints), RULES)?;
    push_if(out, any_asks(constraints), PATTERNS)?;
    out.push_str("}\n")?;
    Ok(())
}
