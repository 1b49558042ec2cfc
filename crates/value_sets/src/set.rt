//! Values that were put in, and whether one is among them.
ghost use Rattle.std.specs.Prelude.{◌≡◌, ◌||◌, false, IfOk, OnOk, map};
ghost use Rattle.std.specs.List.{list_any};
ghost use Rattle.json_value.specs.Value.{Value as JsonValue, same as same_value};
ghost use Rattle.json_value.specs.View.{kept_view};
ghost use Rattle.value_sets.specs.Held.{holds, listed};

use crate::key::key_with;
use json_value::same;
use serde_json::Value;
use std::alloc::{AllocError, Global};
use std::collections::BTreeMap;

/// A set of values. Values that are the same (`json_value::same`) count once.
#[derive(Drop)]
pub struct ValueSet {
    alloc: Global,
    by_key: BTreeMap<u64, Vec<Value>>,
}

fn is_among(values: &[Value], value: &Value) -> bool
    ensures { result ≡ list_any (same_value (kept_view value.now)) (map kept_view values.now) }
{
    for other in values {
        if same(value, other) {
            return true;
        }
    }
    false
}

// The values that stood at a key, or none.
fn or_none(alloc: Global, found: Option<Vec<Value>>) -> Vec<Value>
    ensures { map kept_view result.items ≡ listed found }
{
    match found {
        Some(values) => values,
        None => Vec::new(alloc),
    }
}

impl ValueSet {
    /// The empty set.
    pub fn new(alloc: Global) -> ValueSet
        ensures { (v : JsonValue) → holds result v ≡ false }
    {
        ValueSet {
            alloc,
            by_key: BTreeMap::new(alloc),
        }
    }

    /// Whether the value is in the set. It takes no memory.
    pub fn has(&self, value: &Value) -> bool
        ensures { result ≡ holds self.now (kept_view value.now) }
    {
        match self.by_key.get(&key_with(0, value)) {
            Some(values) => is_among(values, value),
            None => false,
        }
    }

    /// Puts the value in. It fails where memory runs out.
    pub fn insert(&mut self, value: Value) -> Result<(), AllocError>
        ensures { OnOk result ((v : JsonValue) → holds self.new v ≡ (same_value v (kept_view value) || holds self.old v)) }
    {
        let key = key_with(0, &value);
        let mut values = or_none(self.alloc, self.by_key.remove(&key));
        values.push(value)?;
        self.by_key.insert(key, values)?;
        Ok(())
    }
}
