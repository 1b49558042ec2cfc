//! The rules of items.
ghost use Rattle.std.specs.Prelude.{◌≡◌, ◌≤◌, ◌||◌, IfOk, IsErrOf, map, not, option_map, string_bytes};
ghost use Rattle.std.specs.Option.{option_copied};
ghost use Rattle.schema_defs.specs.Faults.{Rises};
ghost use Rattle.model_defs.specs.Model.{rule_of as rule_of_in};
ghost use Rattle.model_defs.specs.Layer.{given_rule_agrees};
ghost use Rattle.conversion_table.specs.Conversions.{constraint_view, conversions_view, rule_view};
ghost use Rattle.json_value.specs.View.{kept_view};
ghost use Rattle.value_models.specs.ContainerView.{container_view};

use crate::rules::rule_agrees;
use conversion_table::{Constraint, Conversions, Rule};
use schema_texts::{TextFault, Texts};
use serde_json::Value;
use value_models::Container;

/// The first rule of the item of that name. It takes time for each constraint before it.
pub fn rule_of<'a>(constraints: &'a [Constraint], name: &str) -> Option<&'a Rule>
    ensures { option_map (λ r. rule_view r.now) result ≡ rule_of_in name.now (map constraint_view constraints.now) }
{
    for constraint in constraints {
        if name == constraint.item.as_str() {
            return Some(&constraint.rule);
        }
    }
    None
}

// An item without a rule refuses what has to meet one.
fn given_rule<T: Texts>(
    texts: &mut T,
    value: &Value,
    rule: Option<&Rule>,
) -> Result<bool, TextFault>
    ensures answer { IfOk result (λ b. b ≡ given_rule_agrees (T.relations texts.old) (kept_view value.now) (option_map rule_view (option_copied rule.entry))) }
    ensures keeps { T.relations texts.new ≡ T.relations texts.old }
    ensures failed { IsErrOf result TextFault.Failed → Rises (T.faults texts.old) (T.faults texts.new) }
    ensures counts { T.faults texts.old ≤ T.faults texts.new }
{
    match rule {
        Some(rule) => {
            let agrees = rule_agrees(texts, value, rule)?;
            Ok(agrees)
        }
        None => Ok(false),
    }
}

/// Whether the value meets the rule of the item, where it has to. It fails where memory runs out, or where the judge of
/// texts failed.
pub fn rule_holds<T: Texts>(
    conversions: &Conversions,
    texts: &mut T,
    container: &Container,
    value: &Value,
) -> Result<bool, TextFault>
    ensures answer { let m = container_view container.now in
        IfOk result (λ b. b ≡ (not m.try_from || given_rule_agrees (T.relations texts.old) (kept_view value.now) (rule_of_in m.name (conversions_view conversions.now).constraints))) }
    ensures keeps { T.relations texts.new ≡ T.relations texts.old }
    ensures failed { IsErrOf result TextFault.Failed → Rises (T.faults texts.old) (T.faults texts.new) }
    ensures counts { T.faults texts.old ≤ T.faults texts.new }
{
    if !container.try_from {
        return Ok(true);
    }
    let holds = given_rule(
        texts,
        value,
        rule_of(&conversions.constraints, &container.name),
    )?;
    Ok(holds)
}
