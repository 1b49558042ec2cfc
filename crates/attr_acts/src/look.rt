//! What the values of slots are.
ghost use Rattle.std.specs.Prelude.{◌≡◌, Some, None, option_map, is_some, map, unwrap_or};
ghost use Rattle.syntax_trees.specs.View.{ty, path_view, expr_path_view};
ghost use Rattle.syntax_trees.specs.Item.{predicate_view};
ghost use Rattle.attr_parts.specs.Lifetimes.{lifetimes};
ghost use Rattle.attr_parts.specs.declared.rename.RenameRule.TheVariants as rules;
ghost use Rattle.attr_parts.specs.Names.{attr_name};
ghost use Rattle.attr_parts.specs.Values.{default_view};
ghost use Rattle.attr_defs.specs.Looks.{plain_of, name_of, rule_of, default_of, predicates_of, ty_of, path_of, function_of, lifetimes_of, look, is_set, rules_at};
ghost use Rattle.attr_acts.specs.Views.{slot_view, value_view};
ghost use Rattle.attr_acts.specs.Kept.{values_in};

use crate::act::{Slot, Value};
use crate::performing::Settings;
use attr_parts::{Default, Name, RenameAllRules, RenameRule};
use std::collections::BTreeSet;
use syntax_trees::{ExprPath, Lifetime, Path, Ty, WherePredicate};
use token_trees::Symbol;

fn plain_in(value: &Value) -> Option<&str>
    ensures { option_map (λ t. t.now) result ≡ plain_of (value_view value.now) }
{
    match value {
        Value::Plain(text) => Some(text),
        _ => None,
    }
}

fn name_in(value: &Value) -> Option<&Name>
    ensures { option_map (λ n. attr_name n.now) result ≡ name_of (value_view value.now) }
{
    match value {
        Value::Name(name) => Some(name),
        _ => None,
    }
}

fn default_in(value: &Value) -> Option<&Default>
    ensures { option_map (λ d. default_view d.now) result ≡ default_of (value_view value.now) }
{
    match value {
        Value::Default(default) => Some(default),
        _ => None,
    }
}

fn predicates_in(value: &Value) -> Option<&[WherePredicate]>
    ensures { option_map (λ v. map predicate_view v.now) result ≡ predicates_of (value_view value.now) }
{
    match value {
        Value::Predicates(predicates) => Some(predicates),
        _ => None,
    }
}

fn ty_in(value: &Value) -> Option<&Ty>
    ensures { option_map (λ t. ty t.now) result ≡ ty_of (value_view value.now) }
{
    match value {
        Value::Ty(ty) => Some(ty),
        _ => None,
    }
}

fn path_in(value: &Value) -> Option<&Path>
    ensures { option_map (λ p. path_view p.now) result ≡ path_of (value_view value.now) }
{
    match value {
        Value::Path(path) => Some(path),
        _ => None,
    }
}

fn function_in(value: &Value) -> Option<&ExprPath>
    ensures { option_map (λ p. expr_path_view p.now) result ≡ function_of (value_view value.now) }
{
    match value {
        Value::Function(path) => Some(path),
        _ => None,
    }
}

fn lifetimes_in(value: &Value) -> Option<&BTreeSet<Lifetime>>
    ensures { option_map (λ l. lifetimes l.now) result ≡ lifetimes_of (value_view value.now) }
{
    match value {
        Value::Lifetimes(lifetimes) => Some(lifetimes),
        _ => None,
    }
}

fn rule_in(value: &Value) -> Option<RenameRule>
    ensures { result ≡ rule_of (value_view value.now) }
{
    match value {
        Value::Rule(rule) => Some(*rule),
        _ => None,
    }
}

impl Settings {
    /// Whether the slot has a value.
    #[tactic(auto, using(crate::proofs::Kept::is_there))]
    pub fn is_set(&self, slot: Slot) -> bool
        ensures { result ≡ is_set (values_in self.now (slot_view slot)) }
    {
        self.get(slot).is_some()
    }

    // The rule of the slot, or none.
    fn rule(&self, slot: Slot) -> RenameRule
        ensures { result ≡ unwrap_or (look rule_of (values_in self.now (slot_view slot))) rules.None }
    {
        match self.get(slot) {
            Some(setting) => rule_in(&setting.value).unwrap_or(RenameRule::None),
            None => RenameRule::None,
        }
    }

    /// The rules of both halves.
    pub fn rules(&self, name: Symbol) -> RenameAllRules
        ensures { result ≡ rules_at (values_in self.now) name.0.now }
    {
        RenameAllRules {
            serialize: self.rule(Slot::written(name)),
            deserialize: self.rule(Slot::read(name)),
        }
    }

    /// The text that the slot has.
    pub fn plain(&self, slot: Slot) -> Option<&str>
        ensures { option_map (λ t. t.now) result ≡ look plain_of (values_in self.now (slot_view slot)) }
    {
        match self.get(slot) {
            Some(setting) => plain_in(&setting.value),
            None => None,
        }
    }

    /// The name that the slot has.
    pub fn name(&self, slot: Slot) -> Option<&Name>
        ensures { option_map (λ n. attr_name n.now) result ≡ look name_of (values_in self.now (slot_view slot)) }
    {
        match self.get(slot) {
            Some(setting) => name_in(&setting.value),
            None => None,
        }
    }

    /// The default that the slot has.
    pub fn default(&self, slot: Slot) -> Option<&Default>
        ensures { option_map (λ d. default_view d.now) result ≡ look default_of (values_in self.now (slot_view slot)) }
    {
        match self.get(slot) {
            Some(setting) => default_in(&setting.value),
            None => None,
        }
    }

    /// The predicates that the slot has.
    pub fn predicates(&self, slot: Slot) -> Option<&[WherePredicate]>
        ensures { option_map (λ v. map predicate_view v.now) result ≡ look predicates_of (values_in self.now (slot_view slot)) }
    {
        match self.get(slot) {
            Some(setting) => predicates_in(&setting.value),
            None => None,
        }
    }

    /// The type that the slot has.
    pub fn ty(&self, slot: Slot) -> Option<&Ty>
        ensures { option_map (λ t. ty t.now) result ≡ look ty_of (values_in self.now (slot_view slot)) }
    {
        match self.get(slot) {
            Some(setting) => ty_in(&setting.value),
            None => None,
        }
    }

    /// The path that the slot has.
    pub fn path(&self, slot: Slot) -> Option<&Path>
        ensures { option_map (λ p. path_view p.now) result ≡ look path_of (values_in self.now (slot_view slot)) }
    {
        match self.get(slot) {
            Some(setting) => path_in(&setting.value),
            None => None,
        }
    }

    /// The path of a function that the slot has.
    pub fn function(&self, slot: Slot) -> Option<&ExprPath>
        ensures { option_map (λ p. expr_path_view p.now) result ≡ look function_of (values_in self.now (slot_view slot)) }
    {
        match self.get(slot) {
            Some(setting) => function_in(&setting.value),
            None => None,
        }
    }

    /// The lifetimes that the slot has.
    pub fn lifetimes(&self, slot: Slot) -> Option<&BTreeSet<Lifetime>>
        ensures { option_map (λ l. lifetimes l.now) result ≡ look lifetimes_of (values_in self.now (slot_view slot)) }
    {
        match self.get(slot) {
            Some(setting) => lifetimes_in(&setting.value),
            None => None,
        }
    }
}
