//! Functions that give the stated defaults.
ghost use Rattle.std.specs.Prelude.{◌≡◌, ◌++◌, IfOk, OnOk, map, string_bytes, decimal};
ghost use Rattle.serde_json.specs.View.{view};
ghost use Rattle.module_texts.specs.Defaults.{block_text, default_text, defaults_from, defaults_text, is_none};

use crate::values::push_value_literal;
use serde_json::Value;
use std::alloc::{AllocError, Global};

fn number_text(alloc: Global, number: usize) -> Result<String, AllocError>
    ensures { IfOk result (λ s. string_bytes s ≡ decimal number) }
{
    let digits = number.to_string(alloc)?;
    Ok(digits)
}

fn push_default(
    out: &mut String,
    alloc: Global,
    number: usize,
    value: &Value,
) -> Result<(), AllocError>
    ensures { OnOk result (string_bytes out.new ≡ string_bytes out.old ++ default_text number (view value.now)) }
{
    let digits = number_text(alloc, number)?;
    out.push_str("\n    pub fn d")?;
    out.push_str(&digits)?;
    out.push_str("<T: DeserializeOwned>() -> T {\n        serde_json::from_str(")?;
    push_value_literal(out, alloc, value)?;
    out.push_str(").unwrap()\n    }\n")?;
    Ok(())
}

fn push_each(out: &mut String, alloc: Global, values: &[Value]) -> Result<(), AllocError>
    ensures { OnOk result (string_bytes out.new ≡ string_bytes out.old ++ defaults_from 0 (map view values.now)) }
{
    for (number, value) in values.iter().enumerate() {
        push_default(out, alloc, number, value)?;
    }
    Ok(())
}

fn is_none(values: &[Value]) -> bool
    ensures { result ≡ is_none (map view values.now) }
{
    match values.split_first() {
        Some(_) => false,
        None => true,
    }
}

fn push_block(out: &mut String, alloc: Global, values: &[Value]) -> Result<(), AllocError>
    ensures { OnOk result (string_bytes out.new ≡ string_bytes out.old ++ block_text (map view values.now)) }
{
    out.push_str("\nmod typify_defaults {\n    use serde::de::DeserializeOwned;\n")?;
    push_each(out, alloc, values)?;
    out.push_str("}\n")?;
    Ok(())
}

/// Appends the module `typify_defaults`, where there are stated defaults.
pub(crate) fn push_defaults(
    out: &mut String,
    alloc: Global,
    values: &[Value],
) -> Result<(), AllocError>
    ensures { OnOk result (string_bytes out.new ≡ string_bytes out.old ++ defaults_text (map view values.now)) }
{
    if is_none(values) {
        return Ok(());
    }
    push_block(out, alloc, values)
}
