//! Lengths of rules are sizes, as their types say.
ghost use Rattle.std.specs.Prelude.{◌≡◌, map, nat_le, true};
ghost use Rattle.std.specs.List.{list_all};
ghost use Rattle.conversion_table.specs.Conversions.{constraint_view, conversions_view, rule_view};
ghost use Rattle.describe_defs.specs.Plain.{greatest_length};
ghost use Rattle.describe_defs.specs.Written.{HasSizes, has_sizes as has_sizes_in, is_size};

use conversion_table::{Constraint, Conversions, Rule};

// A u32 is a size.
fn number_is_size(number: u32)
    ensures { nat_le number greatest_length ≡ true }
{
    let _ = number;
}

fn length_is_size(length: Option<u32>)
    ensures { is_size length ≡ true }
{
    match length {
        Some(number) => number_is_size(number),
        None => {}
    }
}

fn rule_has_sizes(rule: &Rule)
    ensures { has_sizes_in (rule_view rule.now) ≡ true }
{
    match rule {
        Rule::Text {
            least,
            most,
            all: _,
            any: _,
        } => {
            length_is_size(*least);
            length_is_size(*most);
        }
        Rule::Allow(_) | Rule::Deny(_) => {}
    }
}

#[tactic(auto, using(crate::proofs::Lengths::one_sized, crate::proofs::Lengths::all_sized))]
fn rules_have_sizes(constraints: &[Constraint])
    ensures { list_all (λ c. has_sizes_in c.rule) (map constraint_view constraints.now) ≡ true }
{
    for constraint in constraints {
        rule_has_sizes(&constraint.rule);
    }
}

/// Each length of a rule is a size.
pub(crate) fn have_sizes(conversions: &Conversions)
    ensures { HasSizes (conversions_view conversions.now) }
{
    rules_have_sizes(&conversions.constraints)
}
