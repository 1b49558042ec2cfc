//! When one rule implies another.
ghost use Rattle.std.specs.Prelude.{◌≡◌, bytes_eq, map, option_map, string_bytes};
ghost use Rattle.std.specs.List.{list_all, list_any};
ghost use Rattle.schema_defs.specs.Layer.{is_listed};
ghost use Rattle.json_value.specs.View.{kept_view};
ghost use Rattle.conversion_table.specs.Conversions.{rule_view};
ghost use Rattle.evolve_defs.specs.Rules.{all_within, any_within, given_rule_implies, least_within, most_within, rule_implies};

use conversion_table::Rule;
use json_value::same;
use serde_json::Value;

fn least_within(old: Option<u32>, new: Option<u32>) -> bool
    ensures { result ≡ least_within old new }
{
    match (old, new) {
        (_, None) => true,
        (None, Some(new)) => new == 0,
        (Some(old), Some(new)) => new <= old,
    }
}

fn most_within(old: Option<u32>, new: Option<u32>) -> bool
    ensures { result ≡ most_within old new }
{
    match (old, new) {
        (_, None) => true,
        (None, Some(_)) => false,
        (Some(old), Some(new)) => old <= new,
    }
}

/// Whether the text is one of these.
pub(crate) fn is_one_of(text: &str, texts: &[String]) -> bool
    ensures { result ≡ list_any (bytes_eq text.now) (map string_bytes texts.now) }
{
    for other in texts {
        if text == other.as_str() {
            return true;
        }
    }
    false
}

fn all_within(texts: &[String], others: &[String]) -> bool
    ensures { result ≡ all_within (map string_bytes texts.now) (map string_bytes others.now) }
{
    for text in texts {
        if !is_one_of(text, others) {
            return false;
        }
    }
    true
}

fn any_within(old: &[String], new: &[String]) -> bool
    ensures { result ≡ any_within (map string_bytes old.now) (map string_bytes new.now) }
{
    match (old, new) {
        (_, []) => true,
        ([], _) => false,
        _ => all_within(old, new),
    }
}

fn is_listed(value: &Value, values: &[Value]) -> bool
    ensures { result ≡ is_listed (kept_view value.now) (map kept_view values.now) }
{
    for other in values {
        if same(value, other) {
            return true;
        }
    }
    false
}

fn are_listed(values: &[Value], others: &[Value]) -> bool
    ensures { result ≡ list_all (λ v. is_listed v (map kept_view others.now)) (map kept_view values.now) }
{
    for value in values {
        if !is_listed(value, others) {
            return false;
        }
    }
    true
}

fn rule_implies(old: &Rule, new: &Rule) -> bool
    ensures { result ≡ rule_implies (rule_view old.now) (rule_view new.now) }
{
    match (old, new) {
        (
            Rule::Text {
                least,
                most,
                all,
                any,
            },
            Rule::Text {
                least: new_least,
                most: new_most,
                all: new_all,
                any: new_any,
            },
        ) => least_within(*least, *new_least)
            && most_within(*most, *new_most)
            && all_within(new_all, all)
            && any_within(any, new_any),
        (Rule::Allow(old), Rule::Allow(new)) => are_listed(old, new),
        (Rule::Deny(old), Rule::Deny(new)) => are_listed(new, old),
        _ => false,
    }
}

/// Whether a value that meets the one rule meets the other. Where a rule is wanted and none stands, nothing meets it.
pub(crate) fn given_rule_implies(old: Option<&Rule>, new: Option<&Rule>) -> bool
    ensures { result ≡ given_rule_implies (option_map (λ r. rule_view r.now) old.entry) (option_map (λ r. rule_view r.now) new.entry) }
{
    match (old, new) {
        (Some(old), Some(new)) => rule_implies(old, new),
        _ => false,
    }
}
