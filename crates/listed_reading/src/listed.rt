//! Values that rules list.
ghost use Rattle.std.specs.Prelude.{◌≡◌, ◌≤◌, ◌&&◌, IfOk, IsErrOf, map, not, option_map};
ghost use Rattle.schema_defs.specs.Faults.{Rises};
ghost use Rattle.json_value.specs.View.{kept_view};
ghost use Rattle.entry_defs.specs.Takes.{takes};
ghost use Rattle.convert_defs.specs.Values.{listed_by};
ghost use Rattle.row_findings.specs.Given.{given_values_view};
ghost use Rattle.row_findings.specs.View.{rule_view};
ghost use Rattle.tree_types.specs.View.{table_view, tree_view};
ghost use Rattle.listed_reading.specs.Unread.{first_of, is_unread as is_unread_in, standing, standing_unread, unread};

use crate::scalars::takes_scalar;
use row_findings::{GivenValues, RowRule, is_null};
use schema_tree::{TextFault, Texts};
use serde_json::Value;
use tree_types::{Tree, TreeTable};

// Whether the tree takes the value. As many references are followed as lead to different items.
#[tactic(auto, using(crate::proofs::Fuel::takes_known))]
fn tree_takes<'d, 'k, T: Texts>(
    table: &TreeTable<'k>,
    tree: &Tree<'d>,
    value: &Value,
    texts: &mut T,
) -> Result<bool, TextFault>
    ensures answer { IfOk result (λ b. b ≡ takes (table_view table.now) (T.relations texts.old) (tree_view tree.now) (kept_view value.now)) }
    ensures keeps { T.relations texts.new ≡ T.relations texts.old }
    ensures failed { IsErrOf result TextFault.Failed → Rises (T.faults texts.old) (T.faults texts.new) }
    ensures counts { T.faults texts.old ≤ T.faults texts.new }
{
    let left = table.targets.len();
    let answer = takes_scalar(table, left, tree, value, texts)?;
    Ok(answer)
}

// Whether the value is listed, nulls left out or not, and the tree doesn't take it.
fn is_unread<'d, 'k, T: Texts>(
    table: &TreeTable<'k>,
    tree: &Tree<'d>,
    less_nulls: bool,
    value: &Value,
    texts: &mut T,
) -> Result<bool, TextFault>
    ensures answer { IfOk result (λ b. is_unread_in (table_view table.now) (T.relations texts.old) (tree_view tree.now) less_nulls (kept_view value.now) ≡ b) }
    ensures keeps { T.relations texts.new ≡ T.relations texts.old }
    ensures failed { IsErrOf result TextFault.Failed → Rises (T.faults texts.old) (T.faults texts.new) }
    ensures counts { T.faults texts.old ≤ T.faults texts.new }
{
    if less_nulls && is_null(value) {
        return Ok(false);
    }
    let taken = tree_takes(table, tree, value, texts)?;
    Ok(!taken)
}

fn first_among<'d, 'k, T: Texts>(
    table: &TreeTable<'k>,
    tree: &Tree<'d>,
    listed: &'d Vec<Value>,
    less_nulls: bool,
    texts: &mut T,
) -> Result<Option<&'d Value>, TextFault>
    ensures answer { IfOk result (λ o. first_of (standing_unread (table_view table.now) (T.relations texts.old) (tree_view tree.now) less_nulls (map kept_view listed.now.items)) ≡ option_map (λ v. kept_view v.now) o) }
    ensures keeps { T.relations texts.new ≡ T.relations texts.old }
    ensures failed { IsErrOf result TextFault.Failed → Rises (T.faults texts.old) (T.faults texts.new) }
    ensures counts { T.faults texts.old ≤ T.faults texts.new }
{
    for value in listed {
        if is_unread(table, tree, less_nulls, value, texts)? {
            return Ok(Some(value));
        }
    }
    Ok(None)
}

/// The first of the values that the tree doesn't take. It fails as `takes_scalar` does.
pub fn first_unread<'d, 'k, T: Texts>(
    table: &TreeTable<'k>,
    tree: &Tree<'d>,
    values: GivenValues<'d>,
    texts: &mut T,
) -> Result<Option<&'d Value>, TextFault>
    ensures answer { IfOk result (λ o. first_of (unread (table_view table.now) (T.relations texts.old) (tree_view tree.now) (given_values_view values.entry)) ≡ option_map (λ v. kept_view v.now) o) }
    ensures keeps { T.relations texts.new ≡ T.relations texts.old }
    ensures failed { IsErrOf result TextFault.Failed → Rises (T.faults texts.old) (T.faults texts.new) }
    ensures counts { T.faults texts.old ≤ T.faults texts.new }
{
    let found = first_among(table, tree, values.listed, values.less_nulls, texts)?;
    Ok(found)
}

/// The first of the values that the rule lists and the tree doesn't take. It fails as `takes_scalar` does.
pub fn first_unread_by<'d, 'k, T: Texts>(
    table: &TreeTable<'k>,
    tree: &Tree<'d>,
    rule: RowRule<'d>,
    texts: &mut T,
) -> Result<Option<&'d Value>, TextFault>
    ensures answer { IfOk result (λ o. first_of (unread (table_view table.now) (T.relations texts.old) (tree_view tree.now) (listed_by (rule_view rule.entry))) ≡ option_map (λ v. kept_view v.now) o) }
    ensures keeps { T.relations texts.new ≡ T.relations texts.old }
    ensures failed { IsErrOf result TextFault.Failed → Rises (T.faults texts.old) (T.faults texts.new) }
    ensures counts { T.faults texts.old ≤ T.faults texts.new }
{
    match rule {
        RowRule::Allow(values) => {
            let found = first_unread(table, tree, values, texts)?;
            Ok(found)
        }
        RowRule::Deny(values) => {
            let found = first_unread(table, tree, values, texts)?;
            Ok(found)
        }
    }
}

// The first of the values, nulls left out or not.
fn first_standing(listed: &Vec<Value>, less_nulls: bool) -> Option<&Value>
    ensures { option_map (λ v. kept_view v.now) result ≡ first_of (standing less_nulls (map kept_view listed.now.items)) }
{
    for value in listed {
        if !(less_nulls && is_null(value)) {
            return Some(value);
        }
    }
    None
}

#[tactic(auto, using(crate::proofs::Given::standing_given))]
fn first_listed<'d>(values: GivenValues<'d>) -> Option<&'d Value>
    ensures { option_map (λ v. kept_view v.now) result ≡ first_of (given_values_view values.entry) }
{
    first_standing(values.listed, values.less_nulls)
}

/// The first of the values that the rule lists.
pub fn first_listed_by<'d>(rule: RowRule<'d>) -> Option<&'d Value>
    ensures { option_map (λ v. kept_view v.now) result ≡ first_of (listed_by (rule_view rule.entry)) }
{
    match rule {
        RowRule::Allow(values) => first_listed(values),
        RowRule::Deny(values) => first_listed(values),
    }
}
