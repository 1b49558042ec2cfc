//! The conversion table: what values of an item's type must meet beyond the type itself, and the stated defaults.
ghost use Rattle.std.specs.Prelude.{◌≡◌, [], IfOk};
ghost use Rattle.conversion_table.specs.Conversions.{rule_view};

use schema_types::{copy_list_of_texts, copy_list_of_values};
use serde_json::Value;
use std::alloc::{AllocError, Global};

/// The table that goes with emitted items, in the order of the items.
#[derive(Debug, Drop)]
pub struct Conversions {
    /// At most one for an item.
    pub constraints: Vec<Constraint>,
    /// The stated defaults, by the numbers that attributes give them.
    pub defaults: Vec<Value>,
}

/// What the values of an item must meet.
#[derive(Debug)]
pub struct Constraint {
    /// The item's name.
    pub item: String,
    pub rule: Rule,
}

impl Drop for Constraint {
    fn drop(self) {
        let Constraint {
            item: _item,
            rule: _rule,
        } = self;
    }
}

/// What a scalar must meet.
#[derive(Debug)]
pub enum Rule {
    /// A text with at least `least` and at most `most` characters. The patterns of `all` are asked together, and one of
    /// `any`, where that isn't empty.
    Text {
        least: Option<u32>,
        most: Option<u32>,
        all: Vec<String>,
        any: Vec<String>,
    },
    /// One of these scalars.
    Allow(Vec<Value>),
    /// None of these scalars.
    Deny(Vec<Value>),
}

impl Drop for Rule {
    fn drop(self) {
        match self {
            Rule::Text {
                least: _,
                most: _,
                all: _all,
                any: _any,
            } => {}
            Rule::Allow(_values) | Rule::Deny(_values) => {}
        }
    }
}

impl Rule {
    /// A copy. Fails only for want of memory.
    pub fn try_clone(&self, alloc: Global) -> Result<Rule, AllocError>
        ensures { IfOk result (λ r. rule_view r ≡ rule_view self.now) }
    {
        match self {
            Rule::Text {
                least,
                most,
                all,
                any,
            } => Ok(Rule::Text {
                least: *least,
                most: *most,
                all: copy_list_of_texts(alloc, all)?,
                any: copy_list_of_texts(alloc, any)?,
            }),
            Rule::Allow(values) => Ok(Rule::Allow(copy_list_of_values(alloc, values)?)),
            Rule::Deny(values) => Ok(Rule::Deny(copy_list_of_values(alloc, values)?)),
        }
    }
}

impl Conversions {
    /// The empty table. It takes no memory.
    pub fn new(alloc: Global) -> Conversions
        ensures constraints { result.constraints.items ≡ [] }
        ensures defaults { result.defaults.items ≡ [] }
    {
        Conversions {
            constraints: Vec::new(alloc),
            defaults: Vec::new(alloc),
        }
    }
}
