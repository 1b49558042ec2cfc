//! The causes for which a container is outside the reader of values.
ghost use Rattle.std.specs.Prelude.{◌≡◌, map, IfOk};
ghost use Rattle.std.specs.List.{list_any};
ghost use Rattle.syntax_trees.specs.Item.{item_view};
ghost use Rattle.conversion_table.specs.Conversions.{conversions_view};
ghost use Rattle.container_defs.specs.Forms.{names_of, is_outside};
ghost use Rattle.derive_ast.specs.Views.{container_view};
ghost use Rattle.item_causes.specs.Causes.{rule_test, cause_test, causes};

use crate::newtype::{has_odd_try_from, has_text_rule_elsewhere};
use crate::place::has_unknown_default;
use conversion_table::Conversions;
use derive_ast::Container;
use item_forms::{
    ContainerTest, FieldTest, ListTest, VariantTest, any_field, any_fields, any_variant, asked_of,
};
use item_names::ItemNames;
use std::alloc::{AllocError, Global};

/// What the table of conversions says of a container.
#[derive(Clone, Copy)]
pub enum RuleTest {
    /// A default is at a path that is no place of the table.
    UnknownDefault,
    /// It is read as a type that isn't its one field's, or without one rule of its name.
    OddTryFrom,
    /// A rule for texts is of its name, and its one field is no text.
    TextRuleElsewhere,
}

/// A cause: what is asked of the container, of each field, each variant, fields beside one another, or the table.
#[derive(Clone, Copy)]
pub enum Cause {
    Container(ContainerTest),
    Field(FieldTest),
    Variant(VariantTest),
    Fields(ListTest),
    Rule(RuleTest),
}

static CAUSES: [Cause; 35] = [
    Cause::Container(ContainerTest::Generic),
    Cause::Container(ContainerTest::Remote),
    Cause::Container(ContainerTest::From),
    Cause::Container(ContainerTest::Into),
    Cause::Field(FieldTest::Getter),
    Cause::Container(ContainerTest::Bound),
    Cause::Variant(VariantTest::Bound),
    Cause::Field(FieldTest::Bound),
    Cause::Container(ContainerTest::Default),
    Cause::Container(ContainerTest::TaggedStruct),
    Cause::Container(ContainerTest::Identifier),
    Cause::Variant(VariantTest::Other),
    Cause::Variant(VariantTest::Untagged),
    Cause::Variant(VariantTest::Skip),
    Cause::Field(FieldTest::Skip),
    Cause::Variant(VariantTest::SerializeWith),
    Cause::Field(FieldTest::SerializeWith),
    Cause::Variant(VariantTest::DeserializeWith),
    Cause::Field(FieldTest::OtherReader),
    Cause::Field(FieldTest::OtherCondition),
    Cause::Rule(RuleTest::UnknownDefault),
    Cause::Container(ContainerTest::OddFlatten),
    Cause::Field(FieldTest::OddRest),
    Cause::Container(ContainerTest::TransparentWithNames),
    Cause::Rule(RuleTest::OddTryFrom),
    Cause::Field(FieldTest::NamelessExtras),
    Cause::Field(FieldTest::UnknownType),
    Cause::Container(ContainerTest::NamedTwice),
    Cause::Field(FieldTest::OddSome),
    Cause::Field(FieldTest::OddWhole),
    Cause::Rule(RuleTest::TextRuleElsewhere),
    Cause::Fields(ListTest::RepeatsName),
    Cause::Fields(ListTest::Unread),
    Cause::Field(FieldTest::OddEmptiness),
    Cause::Container(ContainerTest::NoRow),
];

fn all_causes() -> &'static [Cause]
    ensures { result.now ≡ causes }
{
    &CAUSES
}

fn has_by_rules(
    alloc: Global,
    conversions: &Conversions,
    test: RuleTest,
    container: &Container<'_>,
) -> Result<bool, AllocError>
    ensures { IfOk result (λ r. r ≡ rule_test (conversions_view conversions.now) test (container_view container.now)) }
{
    match test {
        RuleTest::UnknownDefault => {
            let count = conversions.defaults.as_slice().len();
            let unknown = has_unknown_default(alloc, count, &container.body)?;
            Ok(unknown)
        }
        RuleTest::OddTryFrom => {
            let odd = has_odd_try_from(alloc, conversions, container)?;
            Ok(odd)
        }
        RuleTest::TextRuleElsewhere => Ok(has_text_rule_elsewhere(conversions, container)),
    }
}

// Whether the container has the cause.
fn has(
    alloc: Global,
    names: &ItemNames<'_>,
    conversions: &Conversions,
    cause: Cause,
    container: &Container<'_>,
) -> Result<bool, AllocError>
    ensures { IfOk result (λ r. r ≡ cause_test (names_of (map item_view names.now.items.now)) (conversions_view conversions.now) cause (container_view container.now)) }
{
    match cause {
        Cause::Container(test) => Ok(asked_of(names, test, container)),
        Cause::Field(test) => Ok(any_field(names, test, &container.body)),
        Cause::Variant(test) => Ok(any_variant(test, &container.body)),
        Cause::Fields(test) => {
            let beside = any_fields(alloc, test, &container.body)?;
            Ok(beside)
        }
        Cause::Rule(test) => {
            let rule = has_by_rules(alloc, conversions, test, container)?;
            Ok(rule)
        }
    }
}

fn has_one_of(
    alloc: Global,
    names: &ItemNames<'_>,
    conversions: &Conversions,
    listed: &[Cause],
    container: &Container<'_>,
) -> Result<bool, AllocError>
    ensures { IfOk result (λ r. r ≡ list_any (λ k. cause_test (names_of (map item_view names.now.items.now)) (conversions_view conversions.now) k (container_view container.now)) listed.now) }
{
    for cause in listed {
        if has(alloc, names, conversions, *cause, container)? {
            return Ok(true);
        }
    }
    Ok(false)
}

/// Whether the container is outside the reader of values, by any of the causes. It fails where memory runs out, and at an array whose
/// length is greater than a u64 where two types are compared.
pub fn is_outside(
    alloc: Global,
    names: &ItemNames<'_>,
    conversions: &Conversions,
    container: &Container<'_>,
) -> Result<bool, AllocError>
    ensures { IfOk result (λ r. r ≡ is_outside (names_of (map item_view names.now.items.now)) (conversions_view conversions.now) (container_view container.now)) }
{
    let outside = has_one_of(alloc, names, conversions, all_causes(), container)?;
    Ok(outside)
}
