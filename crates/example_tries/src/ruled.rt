//! Values for items that have to meet a rule.
ghost use Rattle.std.specs.Prelude.{◌≡◌, ◌≤◌};

use crate::making::leaf_value;
use conversion_table::{Constraint, Conversions, Rule};
use example_parts::inner_type;
use schema_texts::Texts;
use serde_json::Value;
use serde_json::value::Map;
use std::alloc::{AllocError, Global};
use value_models::{Container, Containers, ValueType};
use value_parts::rule_holds;
use value_writing::put_member;

// So many characters a made text may have, so that a rule that asks for more costs no memory.
const MOST_CHARACTERS: u32 = 100_000;

// A table with that rule alone, so that none before it is looked at for each text.
fn table_of(alloc: Global, constraint: &Constraint) -> Result<Conversions, AllocError> {
    let item = constraint.item.clone()?;
    let rule = constraint.rule.try_clone(alloc)?;
    let mut constraints = Vec::new(alloc);
    constraints.push(Constraint { item, rule })?;
    Ok(Conversions {
        constraints,
        defaults: Vec::new(alloc),
    })
}

// The first of the texts that meets the rule of the item.
fn first_agreeing<T: Texts>(
    alloc: Global,
    table: &Conversions,
    container: &Container,
    candidates: &[String],
    texts: &mut T,
) -> Option<Value>
    ensures keeps { T.relations texts.new ≡ T.relations texts.old }
    ensures counts { T.faults texts.old ≤ T.faults texts.new }
{
    for candidate in candidates {
        let value = Value::String(String::from_str(alloc, candidate).ok()?);
        if rule_holds(table, texts, container, &value).ok()? {
            return Some(value);
        }
    }
    None
}

// Texts of one letter, repeated: of the least length, and of up to eight characters more.
fn made_texts(alloc: Global, least: u32) -> Result<Vec<String>, AllocError> {
    let mut made = Vec::new(alloc);
    if least > MOST_CHARACTERS {
        return Ok(made);
    }
    for more in 0..9u32 {
        let count = least.saturating_add(more) as usize;
        made.push("a".repeat(alloc, count)?)?;
        made.push("A".repeat(alloc, count)?)?;
        made.push("0".repeat(alloc, count)?)?;
    }
    Ok(made)
}

// The first text that meets the rule of the item: of those that are listed, and then of those that are made.
fn agreeing_text<T: Texts>(
    alloc: Global,
    constraint: &Constraint,
    container: &Container,
    least: u32,
    listed: &[String],
    texts: &mut T,
) -> Option<Value>
    ensures keeps { T.relations texts.new ≡ T.relations texts.old }
    ensures counts { T.faults texts.old ≤ T.faults texts.new }
{
    let table = table_of(alloc, constraint).ok()?;
    let found = first_agreeing(alloc, &table, container, listed, texts);
    if found.is_some() {
        return found;
    }
    let made = made_texts(alloc, least).ok()?;
    first_agreeing(alloc, &table, container, &made, texts)
}

// A value for an item with a rule: the first that is allowed; a text that meets the rule; or where other values aren't
// allowed, that of the inner type.
fn value_for<T: Texts>(
    alloc: Global,
    containers: &Containers,
    constraint: &Constraint,
    listed: &[String],
    texts: &mut T,
) -> Option<Value>
    ensures keeps { T.relations texts.new ≡ T.relations texts.old }
    ensures counts { T.faults texts.old ≤ T.faults texts.new }
{
    let container = containers.named(&constraint.item)?;
    match &constraint.rule {
        Rule::Allow(values) => values.first()?.clone().ok(),
        Rule::Text { least, .. } => {
            let least = least.unwrap_or(0);
            agreeing_text(alloc, constraint, container, least, listed, texts)
        }
        Rule::Deny(_) => match inner_type(&container.body)? {
            ValueType::Text => agreeing_text(alloc, constraint, container, 0, listed, texts),
            inner => leaf_value(alloc, inner),
        },
    }
}

/// The values for the items that have to meet a rule, under the items' names, where one is found. Where memory runs out for
/// the table of them there is none.
pub(crate) fn ruled_values<T: Texts>(
    alloc: Global,
    containers: &Containers,
    constraints: &[Constraint],
    listed: &[String],
    texts: &mut T,
) -> Option<Map<String, Value>>
    ensures keeps { T.relations texts.new ≡ T.relations texts.old }
    ensures counts { T.faults texts.old ≤ T.faults texts.new }
{
    let mut values = Map::new(alloc);
    for constraint in constraints {
        if let Some(value) = value_for(alloc, containers, constraint, listed, texts) {
            put_member(alloc, &mut values, &constraint.item, value).ok()?;
        }
    }
    Some(values)
}
