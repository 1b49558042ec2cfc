//! JSON values as string literals.
ghost use Rattle.std.specs.Prelude.{◌≡◌, ◌++◌, OnOk, map, string_bytes, true};
ghost use Rattle.serde_json.specs.View.{view};
ghost use Rattle.serde_json.specs.Written.{compact_text};
ghost use Rattle.json_value.specs.Value.{is_whole as value_is_whole};
ghost use Rattle.json_value.specs.View.{value_of};
ghost use Rattle.module_texts.specs.Values.{more_values, value_literal, value_text, values_literal, values_text};

use crate::tokens::push_literal;
use json_value::is_whole;
use serde_json::Value;
use std::alloc::{AllocError, Global};

#[tactic(auto, using(crate::proofs::Whole::no_float))]
fn push_whole(out: &mut String, alloc: Global, value: &Value) -> Result<(), AllocError>
    requires { value_is_whole (value_of (view value.now)) ≡ true }
    ensures { OnOk result (string_bytes out.new ≡ string_bytes out.old ++ compact_text (view value.now)) }
{
    let text = value.to_string(alloc)?;
    out.push_str(&text)?;
    Ok(())
}

// The value as JSON.
fn push_value(out: &mut String, alloc: Global, value: &Value) -> Result<(), AllocError>
    ensures { OnOk result (string_bytes out.new ≡ string_bytes out.old ++ value_text (view value.now)) }
{
    if is_whole(value) {
        return push_whole(out, alloc, value);
    }
    out.push_str("null")
}

#[tactic(auto, using(crate::proofs::Parts::assoc))]
fn push_more(out: &mut String, alloc: Global, values: &[Value]) -> Result<(), AllocError>
    ensures { OnOk result (string_bytes out.new ≡ string_bytes out.old ++ more_values (map view values.now)) }
{
    for value in values {
        out.push_str(",")?;
        push_value(out, alloc, value)?;
    }
    Ok(())
}

// The list of the values as JSON.
#[tactic(auto, using(crate::proofs::Parts::assoc))]
fn push_list(out: &mut String, alloc: Global, values: &[Value]) -> Result<(), AllocError>
    ensures { OnOk result (string_bytes out.new ≡ string_bytes out.old ++ values_text (map view values.now)) }
{
    match values.split_first() {
        Some((first, rest)) => {
            out.push_str("[")?;
            push_value(out, alloc, first)?;
            push_more(out, alloc, rest)?;
            out.push_str("]")?;
            Ok(())
        }
        None => out.push_str("[]"),
    }
}

/// Appends the value as JSON in a string literal.
pub(crate) fn push_value_literal(
    out: &mut String,
    alloc: Global,
    value: &Value,
) -> Result<(), AllocError>
    ensures { OnOk result (string_bytes out.new ≡ string_bytes out.old ++ value_literal (view value.now)) }
{
    let mut text = String::new(alloc);
    push_value(&mut text, alloc, value)?;
    push_literal(out, alloc, &text)?;
    Ok(())
}

/// Appends the list of the values as JSON in a string literal.
pub(crate) fn push_values_literal(
    out: &mut String,
    alloc: Global,
    values: &[Value],
) -> Result<(), AllocError>
    ensures { OnOk result (string_bytes out.new ≡ string_bytes out.old ++ values_literal (map view values.now)) }
{
    let mut text = String::new(alloc);
    push_list(&mut text, alloc, values)?;
    push_literal(out, alloc, &text)?;
    Ok(())
}
