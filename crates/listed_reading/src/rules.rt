//! Values and rules.
ghost use Rattle.std.specs.Prelude.{◌≡◌, ◌≤◌, IfOk, IsErrOf};
ghost use Rattle.std.specs.List.{list_any};
ghost use Rattle.schema_defs.specs.Faults.{Rises};
ghost use Rattle.json_value.specs.View.{kept_view};
ghost use Rattle.schema_types.specs.View.{properties_view, texts_view};
ghost use Rattle.model_defs.specs.Layer.{has_one_of as has_one_of_in, rule_agrees};
ghost use Rattle.convert_defs.specs.Owners.{pattern_names};
ghost use Rattle.convert_defs.specs.Scalars.{rule_of_texts};
ghost use Rattle.tree_types.specs.View.{rule_view};
ghost use Rattle.listed_reading.specs.Rules.{keys_rule};

use row_findings::lists_value;
use schema_tree::{TextFault, Texts};
use schema_types::{Schema, StringValidation};
use serde_json::Value;
use std::collections::BTreeMap;
use tree_parts::meets_texts;
use tree_types::TreeRule;

// Whether the text has one of the patterns that stand for names there.
fn has_any<T: Texts>(
    patterns: &BTreeMap<String, Schema>,
    text: &str,
    texts: &mut T,
) -> Result<bool, TextFault>
    ensures answer { IfOk result (λ b. b ≡ list_any (λ p. (T.relations texts.old).matches p text.now) (pattern_names (properties_view patterns.now.entries))) }
    ensures keeps { T.relations texts.new ≡ T.relations texts.old }
    ensures failed { IsErrOf result TextFault.Failed → Rises (T.faults texts.old) (T.faults texts.new) }
    ensures counts { T.faults texts.old ≤ T.faults texts.new }
{
    for (pattern, _) in patterns.iter() {
        if texts.has_pattern(pattern, text)? {
            return Ok(true);
        }
    }
    Ok(false)
}

// The same, where there are any.
#[tactic(auto, using(crate::proofs::Ruled::none_given, crate::proofs::Ruled::some_given))]
fn has_one_of<T: Texts>(
    patterns: &BTreeMap<String, Schema>,
    text: &str,
    texts: &mut T,
) -> Result<bool, TextFault>
    ensures answer { IfOk result (λ b. b ≡ has_one_of_in (λ p. (T.relations texts.old).matches p text.now) (pattern_names (properties_view patterns.now.entries))) }
    ensures keeps { T.relations texts.new ≡ T.relations texts.old }
    ensures failed { IsErrOf result TextFault.Failed → Rises (T.faults texts.old) (T.faults texts.new) }
    ensures counts { T.faults texts.old ≤ T.faults texts.new }
{
    if patterns.is_empty() {
        return Ok(true);
    }
    let found = has_any(patterns, text, texts)?;
    Ok(found)
}

#[tactic(auto, using(crate::proofs::Ruled::keys_say))]
fn is_key<T: Texts>(
    patterns: &BTreeMap<String, Schema>,
    value: &Value,
    texts: &mut T,
) -> Result<bool, TextFault>
    ensures answer { IfOk result (λ b. b ≡ rule_agrees (T.relations texts.old) (kept_view value.now) (keys_rule (pattern_names (properties_view patterns.now.entries)))) }
    ensures keeps { T.relations texts.new ≡ T.relations texts.old }
    ensures failed { IsErrOf result TextFault.Failed → Rises (T.faults texts.old) (T.faults texts.new) }
    ensures counts { T.faults texts.old ≤ T.faults texts.new }
{
    match value {
        Value::String(text) => {
            let found = has_one_of(patterns, text, texts)?;
            Ok(found)
        }
        _ => Ok(false),
    }
}

#[tactic(auto, using(crate::proofs::Ruled::texts_say))]
fn is_ruled_text<T: Texts>(
    rules: &StringValidation,
    value: &Value,
    texts: &mut T,
) -> Result<bool, TextFault>
    ensures answer { IfOk result (λ b. b ≡ rule_agrees (T.relations texts.old) (kept_view value.now) (rule_of_texts (texts_view rules.now))) }
    ensures keeps { T.relations texts.new ≡ T.relations texts.old }
    ensures failed { IsErrOf result TextFault.Failed → Rises (T.faults texts.old) (T.faults texts.new) }
    ensures counts { T.faults texts.old ≤ T.faults texts.new }
{
    match value {
        Value::String(text) => {
            let meets = meets_texts(Some(rules), text, texts)?;
            Ok(meets)
        }
        _ => Ok(false),
    }
}

/// Whether the value meets the rule. It fails where memory runs out, or where the judge of texts failed.
#[tactic(auto, using(crate::proofs::Ruled::allow_says, crate::proofs::Ruled::deny_says))]
pub fn rule_holds<T: Texts>(
    rule: &TreeRule<'_>,
    value: &Value,
    texts: &mut T,
) -> Result<bool, TextFault>
    ensures answer { IfOk result (λ b. b ≡ rule_agrees (T.relations texts.old) (kept_view value.now) (rule_view rule.now)) }
    ensures keeps { T.relations texts.new ≡ T.relations texts.old }
    ensures failed { IsErrOf result TextFault.Failed → Rises (T.faults texts.old) (T.faults texts.new) }
    ensures counts { T.faults texts.old ≤ T.faults texts.new }
{
    match rule {
        TreeRule::Texts(rules) => {
            let holds = is_ruled_text(*rules, value, texts)?;
            Ok(holds)
        }
        TreeRule::Keys(patterns) => {
            let holds = is_key(*patterns, value, texts)?;
            Ok(holds)
        }
        TreeRule::Allow(values) => Ok(lists_value(*values, value)),
        TreeRule::Deny(values) => Ok(!lists_value(*values, value)),
    }
}
