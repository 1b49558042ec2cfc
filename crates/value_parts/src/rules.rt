//! Rules on values that were read.
ghost use Rattle.std.specs.Prelude.{◌≡◌, ◌≤◌, ◌&&◌, IfOk, IsErrOf, map, string_bytes};
ghost use Rattle.std.specs.List.{list_all, list_any};
ghost use Rattle.schema_defs.specs.Faults.{Rises};
ghost use Rattle.schema_defs.specs.Layer.{is_listed as is_listed_in};
ghost use Rattle.json_value.specs.View.{kept_view};
ghost use Rattle.model_defs.specs.Layer.{has_one_of, rule_agrees as rule_says};
ghost use Rattle.conversion_table.specs.Conversions.{rule_view};

use conversion_table::Rule;
use json_value::same;
use schema_texts::{TextFault, Texts, count_characters, is_within};
use serde_json::Value;

// Whether the text has each of the patterns.
fn has_each<T: Texts>(texts: &mut T, patterns: &[String], text: &str) -> Result<bool, TextFault>
    ensures answer { IfOk result (λ b. b ≡ list_all (λ p. (T.relations texts.old).matches p text.now) (map string_bytes patterns.now)) }
    ensures keeps { T.relations texts.new ≡ T.relations texts.old }
    ensures failed { IsErrOf result TextFault.Failed → Rises (T.faults texts.old) (T.faults texts.new) }
    ensures counts { T.faults texts.old ≤ T.faults texts.new }
{
    for pattern in patterns {
        if !texts.has_pattern(pattern, text)? {
            return Ok(false);
        }
    }
    Ok(true)
}

// Whether the text has one of the patterns.
fn has_any<T: Texts>(texts: &mut T, patterns: &[String], text: &str) -> Result<bool, TextFault>
    ensures answer { IfOk result (λ b. b ≡ list_any (λ p. (T.relations texts.old).matches p text.now) (map string_bytes patterns.now)) }
    ensures keeps { T.relations texts.new ≡ T.relations texts.old }
    ensures failed { IsErrOf result TextFault.Failed → Rises (T.faults texts.old) (T.faults texts.new) }
    ensures counts { T.faults texts.old ≤ T.faults texts.new }
{
    for pattern in patterns {
        if texts.has_pattern(pattern, text)? {
            return Ok(true);
        }
    }
    Ok(false)
}

// The same, where there are any.
fn has_any_given<T: Texts>(
    texts: &mut T,
    patterns: &[String],
    text: &str,
) -> Result<bool, TextFault>
    ensures answer { IfOk result (λ b. b ≡ has_one_of (λ p. (T.relations texts.old).matches p text.now) (map string_bytes patterns.now)) }
    ensures keeps { T.relations texts.new ≡ T.relations texts.old }
    ensures failed { IsErrOf result TextFault.Failed → Rises (T.faults texts.old) (T.faults texts.new) }
    ensures counts { T.faults texts.old ≤ T.faults texts.new }
{
    if patterns.is_empty() {
        return Ok(true);
    }
    let found = has_any(texts, patterns, text)?;
    Ok(found)
}

fn is_listed(values: &[Value], value: &Value) -> bool
    ensures { result ≡ is_listed_in (kept_view value.now) (map kept_view values.now) }
{
    for other in values {
        if same(value, other) {
            return true;
        }
    }
    false
}

fn all_three(first: bool, second: bool, third: bool) -> bool
    ensures { result ≡ (first && second && third) }
{
    first && second && third
}

#[tactic(auto, using(crate::proofs::Listed::allow_says, crate::proofs::Listed::deny_says))]
/// Whether the value meets the rule. It fails where memory runs out, or where the judge of texts failed.
pub fn rule_agrees<T: Texts>(texts: &mut T, value: &Value, rule: &Rule) -> Result<bool, TextFault>
    ensures answer { IfOk result (λ b. b ≡ rule_says (T.relations texts.old) (kept_view value.now) (rule_view rule.now)) }
    ensures keeps { T.relations texts.new ≡ T.relations texts.old }
    ensures failed { IsErrOf result TextFault.Failed → Rises (T.faults texts.old) (T.faults texts.new) }
    ensures counts { T.faults texts.old ≤ T.faults texts.new }
{
    match rule {
        Rule::Text {
            least,
            most,
            all,
            any,
        } => match value {
            Value::String(text) => {
                let each = has_each(texts, all, text)?;
                let one = has_any_given(texts, any, text)?;
                Ok(all_three(is_within(*least, *most, count_characters(text)), each, one))
            }
            _ => Ok(false),
        },
        Rule::Allow(values) => Ok(is_listed(values, value)),
        Rule::Deny(values) => Ok(!is_listed(values, value)),
    }
}
