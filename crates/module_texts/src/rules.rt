//! What a value must meet, a line for each bound, pattern and list.
ghost use Rattle.std.specs.Prelude.{◌≡◌, ◌++◌, IfOk, OnOk, codes, map, string_bytes, decimal, if◌then◌else◌};
ghost use Rattle.std.specs.List.{list_all};
ghost use Rattle.plain_patterns.specs.Ends.{look_seen};
ghost use Rattle.serde_json.specs.View.{view};
ghost use Rattle.module_texts.specs.Rules.{any_line, bound_line, has_lines, is_alone as is_alone_of, listed_line, look_line, look_lines, look_part, look_parts, more_parts, more_patterns, number_line, one_of_line, one_where_line, own_literal, rule_lines, search_lines, search_part, searched, source_line, text_lines};
ghost use Rattle.module_texts.specs.Tokens.{literal};

use crate::calls::push_call;
use crate::tokens::push_literal;
use crate::values::push_values_literal;
use conversion_table::Rule;
use plain_patterns::{Look, plain_pattern};
use serde_json::Value;
use std::alloc::{AllocError, Global};

fn number_text(alloc: Global, number: u32) -> Result<String, AllocError>
    ensures { IfOk result (λ s. string_bytes s ≡ decimal number) }
{
    let digits = number.to_string(alloc)?;
    Ok(digits)
}

fn push_number(out: &mut String, alloc: Global, call: &str, number: u32) -> Result<(), AllocError>
    ensures { OnOk result (string_bytes out.new ≡ string_bytes out.old ++ number_line call.now number) }
{
    let digits = number_text(alloc, number)?;
    out.push_str("        typify_present::")?;
    out.push_str(call)?;
    out.push_str("(&value, ")?;
    out.push_str(&digits)?;
    out.push_str(")?;\n")?;
    Ok(())
}

// A bound, with the call that asks it.
fn push_bound(
    out: &mut String,
    alloc: Global,
    call: &str,
    bound: &Option<u32>,
) -> Result<(), AllocError>
    ensures { OnOk result (string_bytes out.new ≡ string_bytes out.old ++ bound_line call.now bound.now) }
{
    match bound {
        Some(bound) => push_number(out, alloc, call, *bound),
        None => Ok(()),
    }
}

// What is searched for, with the call that asks it.
fn push_source(out: &mut String, alloc: Global, call: &str, source: &str) -> Result<(), AllocError>
    ensures { OnOk result (string_bytes out.new ≡ string_bytes out.old ++ source_line call.now source.now) }
{
    let mut text = String::new(alloc);
    push_literal(&mut text, alloc, source)?;
    push_call(out, call, &text)?;
    Ok(())
}

fn push_look(out: &mut String, alloc: Global, look: &Look) -> Result<(), AllocError>
    ensures { OnOk result (string_bytes out.new ≡ string_bytes out.old ++ look_line (look_seen look.now)) }
{
    if look.negated {
        push_source(out, alloc, "lacks", &look.source)?;
        return Ok(());
    }
    push_source(out, alloc, "has", &look.source)?;
    Ok(())
}

#[tactic(auto, using(crate::proofs::Parts::assoc))]
fn push_looks(out: &mut String, alloc: Global, looks: &[Look]) -> Result<(), AllocError>
    ensures { OnOk result (string_bytes out.new ≡ string_bytes out.old ++ look_lines (map look_seen looks.now)) }
{
    for look in looks {
        push_look(out, alloc, look)?;
    }
    Ok(())
}

#[tactic(auto, using(crate::proofs::Parts::assoc))]
fn push_searches(
    out: &mut String,
    alloc: Global,
    own: &str,
    beside: &[Look],
) -> Result<(), AllocError>
    ensures { OnOk result (string_bytes out.new ≡ string_bytes out.old ++ (source_line (codes "has") own.now ++ look_lines (map look_seen beside.now))) }
{
    push_source(out, alloc, "has", own)?;
    push_looks(out, alloc, beside)?;
    Ok(())
}

// The lines of a pattern, rewritten for the crate regex.
fn push_has(out: &mut String, alloc: Global, pattern: &str) -> Result<(), AllocError>
    ensures { OnOk result (string_bytes out.new ≡ string_bytes out.old ++ search_lines (searched pattern.now)) }
{
    let found = plain_pattern(alloc, pattern)?;
    match found {
        Some(searches) => push_searches(out, alloc, &searches.own, &searches.beside),
        None => push_searches(out, alloc, pattern, &[]),
    }
}

#[tactic(auto, using(crate::proofs::Parts::assoc))]
fn push_all(out: &mut String, alloc: Global, patterns: &[String]) -> Result<(), AllocError>
    ensures { OnOk result (string_bytes out.new ≡ string_bytes out.old ++ has_lines (map string_bytes patterns.now)) }
{
    for pattern in patterns {
        push_has(out, alloc, pattern)?;
    }
    Ok(())
}

// Whether nothing is searched for beside a pattern.
fn is_alone(alloc: Global, pattern: &str) -> Result<bool, AllocError>
    ensures { IfOk result (λ b. b ≡ is_alone_of pattern.now) }
{
    let found = plain_pattern(alloc, pattern)?;
    match found {
        Some(searches) => Ok(searches.beside.is_empty()),
        None => Ok(true),
    }
}

fn are_alone(alloc: Global, patterns: &[String]) -> Result<bool, AllocError>
    ensures { IfOk result (λ b. b ≡ list_all is_alone_of (map string_bytes patterns.now)) }
{
    for pattern in patterns {
        if !is_alone(alloc, pattern)? {
            return Ok(false);
        }
    }
    Ok(true)
}

// A pattern as a string literal.
fn push_own(out: &mut String, alloc: Global, pattern: &str) -> Result<(), AllocError>
    ensures { OnOk result (string_bytes out.new ≡ string_bytes out.old ++ own_literal pattern.now) }
{
    let found = plain_pattern(alloc, pattern)?;
    match found {
        Some(searches) => push_literal(out, alloc, &searches.own),
        None => push_literal(out, alloc, pattern),
    }
}

#[tactic(auto, using(crate::proofs::Parts::assoc))]
fn push_more(out: &mut String, alloc: Global, patterns: &[String]) -> Result<(), AllocError>
    ensures { OnOk result (string_bytes out.new ≡ string_bytes out.old ++ more_patterns (map string_bytes patterns.now)) }
{
    for pattern in patterns {
        out.push_str(", ")?;
        push_own(out, alloc, pattern)?;
    }
    Ok(())
}

fn push_one_of(
    out: &mut String,
    alloc: Global,
    first: &str,
    rest: &[String],
) -> Result<(), AllocError>
    ensures { OnOk result (string_bytes out.new ≡ string_bytes out.old ++ one_of_line first.now (map string_bytes rest.now)) }
{
    out.push_str("        typify_present::has_one(&value, &[")?;
    push_own(out, alloc, first)?;
    push_more(out, alloc, rest)?;
    out.push_str("])?;\n")?;
    Ok(())
}

fn push_sign(out: &mut String, negated: bool) -> Result<(), AllocError>
    ensures { OnOk result (string_bytes out.new ≡ string_bytes out.old ++ (if negated then codes ", false)" else codes ", true)")) }
{
    if negated {
        out.push_str(", false)")?;
        return Ok(());
    }
    out.push_str(", true)")?;
    Ok(())
}

#[tactic(auto, using(crate::proofs::Parts::assoc))]
fn push_look_part(out: &mut String, alloc: Global, look: &Look) -> Result<(), AllocError>
    ensures { OnOk result (string_bytes out.new ≡ string_bytes out.old ++ look_part (look_seen look.now)) }
{
    out.push_str(", (")?;
    push_literal(out, alloc, &look.source)?;
    push_sign(out, look.negated)?;
    Ok(())
}

#[tactic(auto, using(crate::proofs::Parts::assoc))]
fn push_look_parts(out: &mut String, alloc: Global, looks: &[Look]) -> Result<(), AllocError>
    ensures { OnOk result (string_bytes out.new ≡ string_bytes out.old ++ look_parts (map look_seen looks.now)) }
{
    for look in looks {
        push_look_part(out, alloc, look)?;
    }
    Ok(())
}

fn push_part(out: &mut String, alloc: Global, own: &str, beside: &[Look]) -> Result<(), AllocError>
    ensures { OnOk result (string_bytes out.new ≡ string_bytes out.old ++ (codes "&[(" ++ (literal own.now ++ (codes ", true)" ++ (look_parts (map look_seen beside.now) ++ codes "]"))))) }
{
    out.push_str("&[(")?;
    push_literal(out, alloc, own)?;
    push_sign(out, false)?;
    push_look_parts(out, alloc, beside)?;
    out.push_str("]")?;
    Ok(())
}

// What is searched for a pattern, as a list.
fn push_search_part(out: &mut String, alloc: Global, pattern: &str) -> Result<(), AllocError>
    ensures { OnOk result (string_bytes out.new ≡ string_bytes out.old ++ search_part (searched pattern.now)) }
{
    let found = plain_pattern(alloc, pattern)?;
    match found {
        Some(searches) => push_part(out, alloc, &searches.own, &searches.beside),
        None => push_part(out, alloc, pattern, &[]),
    }
}

#[tactic(auto, using(crate::proofs::Parts::assoc))]
fn push_more_parts(out: &mut String, alloc: Global, patterns: &[String]) -> Result<(), AllocError>
    ensures { OnOk result (string_bytes out.new ≡ string_bytes out.old ++ more_parts (map string_bytes patterns.now)) }
{
    for pattern in patterns {
        out.push_str(", ")?;
        push_search_part(out, alloc, pattern)?;
    }
    Ok(())
}

fn push_one_where(
    out: &mut String,
    alloc: Global,
    first: &str,
    rest: &[String],
) -> Result<(), AllocError>
    ensures { OnOk result (string_bytes out.new ≡ string_bytes out.old ++ one_where_line first.now (map string_bytes rest.now)) }
{
    out.push_str("        typify_present::has_one_where(&value, &[")?;
    push_search_part(out, alloc, first)?;
    push_more_parts(out, alloc, rest)?;
    out.push_str("])?;\n")?;
    Ok(())
}

fn push_some(
    out: &mut String,
    alloc: Global,
    alone: bool,
    first: &str,
    rest: &[String],
) -> Result<(), AllocError>
    ensures { OnOk result (string_bytes out.new ≡ string_bytes out.old ++ (if alone then one_of_line first.now (map string_bytes rest.now) else one_where_line first.now (map string_bytes rest.now))) }
{
    if alone {
        push_one_of(out, alloc, first, rest)?;
        return Ok(());
    }
    push_one_where(out, alloc, first, rest)?;
    Ok(())
}

// The patterns of which one is asked, where there are some.
fn push_any(out: &mut String, alloc: Global, patterns: &[String]) -> Result<(), AllocError>
    ensures { OnOk result (string_bytes out.new ≡ string_bytes out.old ++ any_line (map string_bytes patterns.now)) }
{
    let alone = are_alone(alloc, patterns)?;
    match patterns.split_first() {
        Some((first, rest)) => push_some(out, alloc, alone, first, rest),
        None => Ok(()),
    }
}

#[tactic(auto, using(crate::proofs::Parts::assoc))]
fn push_text(
    out: &mut String,
    alloc: Global,
    least: &Option<u32>,
    most: &Option<u32>,
    all: &[String],
    any: &[String],
) -> Result<(), AllocError>
    ensures { OnOk result (string_bytes out.new ≡ string_bytes out.old ++ text_lines least.now most.now (map string_bytes all.now) (map string_bytes any.now)) }
{
    push_bound(out, alloc, "at_least", least)?;
    push_bound(out, alloc, "at_most", most)?;
    push_all(out, alloc, all)?;
    push_any(out, alloc, any)?;
    Ok(())
}

// A list of values, with the call that asks it.
fn push_listed(
    out: &mut String,
    alloc: Global,
    call: &str,
    values: &[Value],
) -> Result<(), AllocError>
    ensures { OnOk result (string_bytes out.new ≡ string_bytes out.old ++ listed_line call.now (map view values.now)) }
{
    let mut text = String::new(alloc);
    push_values_literal(&mut text, alloc, values)?;
    push_call(out, call, &text)?;
    Ok(())
}

/// Appends the lines of a rule.
pub(crate) fn push_rule(out: &mut String, alloc: Global, rule: &Rule) -> Result<(), AllocError>
    ensures { OnOk result (string_bytes out.new ≡ string_bytes out.old ++ rule_lines rule.now) }
{
    match rule {
        Rule::Text {
            least,
            most,
            all,
            any,
        } => push_text(out, alloc, least, most, all, any),
        Rule::Allow(values) => push_listed(out, alloc, "listed", values),
        Rule::Deny(values) => push_listed(out, alloc, "not_listed", values),
    }
}
