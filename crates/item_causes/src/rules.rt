//! The rules of a name.
ghost use Rattle.std.specs.Prelude.{◌≡◌, filter, bytes_eq, map};
ghost use Rattle.std.specs.List.{list_any};
ghost use Rattle.conversion_table.specs.Conversions.{constraint_view, rule_view};
ghost use Rattle.container_defs.specs.Checks.{is_one};
ghost use Rattle.container_defs.specs.Forms.{is_text_rule};

use conversion_table::{Constraint, Rule};

fn is_of(constraint: &Constraint, name: &str) -> bool
    ensures { result ≡ bytes_eq (constraint_view constraint.now).item name.now }
{
    constraint.item.as_str() == name
}

fn is_text_rule(rule: &Rule) -> bool
    ensures { result ≡ is_text_rule (rule_view rule.now) }
{
    match rule {
        Rule::Text { .. } => true,
        Rule::Allow(_) => false,
        Rule::Deny(_) => false,
    }
}

/// Whether one rule alone is of that name.
#[tactic(auto, using(crate::proofs::Filtered::passed, crate::proofs::Filtered::first, crate::proofs::Filtered::second, crate::proofs::Filtered::single_end))]
pub(crate) fn has_one(constraints: &[Constraint], name: &str) -> bool
    ensures { result ≡ is_one (filter (λ k. bytes_eq k.item name.now) (map constraint_view constraints.now)) }
{
    let mut found = false;
    for constraint in constraints {
        if is_of(constraint, name) {
            if found {
                return false;
            }
            found = true;
        }
    }
    found
}

/// Whether one of the rules of that name is for texts.
#[tactic(auto, using(crate::proofs::Filtered::other_turn, crate::proofs::Filtered::no_turn, crate::proofs::Filtered::yes_turn, crate::proofs::Filtered::none_end))]
pub(crate) fn has_text_rule(constraints: &[Constraint], name: &str) -> bool
    ensures { result ≡ list_any (λ k. is_text_rule k.rule) (filter (λ k. bytes_eq k.item name.now) (map constraint_view constraints.now)) }
{
    for constraint in constraints {
        if is_of(constraint, name) {
            if is_text_rule(&constraint.rule) {
                return true;
            }
        }
    }
    false
}
