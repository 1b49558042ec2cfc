//! Values and what is made of one part.
ghost use Rattle.std.specs.Prelude.{◌≡◌, ◌≤◌, IfOk, IsErrOf, option_map, unwrap_or};
ghost use Rattle.schema_defs.specs.Faults.{Rises};
ghost use Rattle.json_value.specs.View.{kept_view};
ghost use Rattle.entry_defs.specs.Entry.{Entry};
ghost use Rattle.entry_defs.specs.Layer.{rule_holds as rule_holds_in};
ghost use Rattle.tree_types.specs.View.{rule_view, wrapped};
ghost use Rattle.listed_reading.specs.Followed.{Followed, takes_in};

use crate::owners::no_list;
use crate::rules::rule_holds;
use row_findings::is_null;
use schema_tree::{TextFault, Texts};
use serde_json::Value;
use tree_types::{TreeRule, Wrap};

/// Whether the value meets the rule, where one is given. It fails as `rule_holds` does.
pub fn given_rule_holds<T: Texts>(
    rule: &Option<TreeRule<'_>>,
    value: &Value,
    texts: &mut T,
) -> Result<bool, TextFault>
    ensures answer { IfOk result (λ b. b ≡ rule_holds_in (T.relations texts.old) (kept_view value.now) (option_map rule_view rule.now)) }
    ensures keeps { T.relations texts.new ≡ T.relations texts.old }
    ensures failed { IsErrOf result TextFault.Failed → Rises (T.faults texts.old) (T.faults texts.new) }
    ensures counts { T.faults texts.old ≤ T.faults texts.new }
{
    match rule {
        Some(rule) => {
            let holds = rule_holds(rule, value, texts)?;
            Ok(holds)
        }
        None => Ok(true),
    }
}

/// What is made of a part says of the value whatever the part says, or nothing where it says what the part does.
#[tactic(auto, using(crate::proofs::Forms::null_taken, crate::proofs::Forms::option_passed, crate::proofs::Forms::vec_refused, crate::proofs::Forms::set_refused, crate::proofs::Forms::array_refused, crate::proofs::Forms::newtype_refused, crate::proofs::Forms::newtype_passed))]
pub fn wrap_takes<T: Texts>(
    wrap: &Wrap<'_>,
    value: &Value,
    texts: &mut T,
) -> Result<Option<bool>, TextFault>
    ensures taken { IfOk result (λ o. (t : Followed) (e : Entry) → takes_in t (T.relations texts.old) (wrapped wrap.now e) (kept_view value.now) ≡ unwrap_or o (takes_in t (T.relations texts.old) e (kept_view value.now))) }
    ensures keeps { T.relations texts.new ≡ T.relations texts.old }
    ensures failed { IsErrOf result TextFault.Failed → Rises (T.faults texts.old) (T.faults texts.new) }
    ensures counts { T.faults texts.old ≤ T.faults texts.new }
{
    match wrap {
        Wrap::Option => {
            if is_null(value) {
                return Ok(Some(true));
            }
            Ok(None)
        }
        Wrap::Vec => {
            no_list(value)?;
            Ok(Some(false))
        }
        Wrap::Set => {
            no_list(value)?;
            Ok(Some(false))
        }
        Wrap::Array(_) => {
            no_list(value)?;
            Ok(Some(false))
        }
        Wrap::Newtype { name: _, rule } => {
            if given_rule_holds(rule, value, texts)? {
                return Ok(None);
            }
            Ok(Some(false))
        }
    }
}
