//! Items described.
ghost use Rattle.std.specs.Prelude.{◌≡◌, None, map, IfErr, IfOk};
ghost use Rattle.syntax_trees.specs.Item.{item_view};
ghost use Rattle.syntax_trees.specs.View.{ty as ty_view};
ghost use Rattle.json_value.specs.View.{kept_view};
ghost use Rattle.conversion_table.specs.Conversions.{conversions_view};
ghost use Rattle.type_spellings.specs.Types.{type_of};
ghost use Rattle.value_models.specs.ContainersView.{containers_in};
ghost use Rattle.value_models.specs.TypeView.{type_view};
ghost use Rattle.describe_defs.specs.NotPlain.{why_not_plain as why_not_plain_in};
ghost use Rattle.describe_defs.specs.Written.{description_value as description_value_of};
ghost use Rattle.model_describe.specs.Described.{IsDescription, IsPlainItems, IsRefused, IsTold, models_in};

use crate::errors::DescribeError;
use crate::sizes::have_sizes;
use crate::table::table_of;
use conversion_table::Conversions;
use described_values::description_value;
use plain_tables::why_not_plain;
use serde_json::Value;
use std::alloc::Global;
use syntax_trees::{DeriveInput, Ty};
use value_kinds::ModelTable;
use value_models::{Containers, ValueType};
use value_types::value_type;

fn written(
    alloc: Global,
    containers: &Containers,
    conversions: &Conversions,
    root: &ValueType,
) -> Result<Value, DescribeError>
    ensures value { IfOk result (λ v. kept_view v ≡ description_value_of (containers_in containers.now) (conversions_view conversions.now) (type_view root.now)) }
    ensures memory { IfErr result (λ e. e ≡ DescribeError.Memory) }
{
    match description_value(alloc, containers, conversions, root) {
        Ok(value) => Ok(value),
        Err(_) => Err(DescribeError::Memory),
    }
}

fn if_plain(
    alloc: Global,
    table: &ModelTable,
    conversions: &Conversions,
    root: &ValueType,
) -> Result<Value, DescribeError>
    ensures plain { IfOk result (λ _. why_not_plain_in (containers_in table.now.containers) (conversions_view conversions.now) (type_view root.now) ≡ None) }
    ensures value { IfOk result (λ v. kept_view v ≡ description_value_of (containers_in table.now.containers) (conversions_view conversions.now) (type_view root.now)) }
    ensures told { IfErr result (IsTold (why_not_plain_in (containers_in table.now.containers) (conversions_view conversions.now) (type_view root.now))) }
{
    match why_not_plain(alloc, table, conversions, root) {
        Ok(None) => match written(alloc, &table.containers, conversions, root) {
            Ok(value) => Ok(value),
            Err(error) => Err(error),
        },
        Ok(Some(item)) => Err(DescribeError::NotPlain { item }),
        Err(_) => Err(DescribeError::Memory),
    }
}

fn by_table(
    alloc: Global,
    table: &ModelTable,
    conversions: &Conversions,
    root: &Ty,
) -> Result<Value, DescribeError>
    ensures plain { IfOk result (λ _. why_not_plain_in (containers_in table.now.containers) (conversions_view conversions.now) (type_of (ty_view root.now)) ≡ None) }
    ensures value { IfOk result (λ v. kept_view v ≡ description_value_of (containers_in table.now.containers) (conversions_view conversions.now) (type_of (ty_view root.now))) }
    ensures told { IfErr result (IsTold (why_not_plain_in (containers_in table.now.containers) (conversions_view conversions.now) (type_of (ty_view root.now)))) }
{
    match value_type(alloc, root) {
        Ok(root) => match if_plain(alloc, table, conversions, &root) {
            Ok(value) => Ok(value),
            Err(error) => Err(error),
        },
        Err(_) => Err(DescribeError::Memory),
    }
}

/// The schema of exactly the values with i64 numbers that the type reads, where the items with it are a plain table; its
/// references lead to `definitions` of all items. Items are read for both derives with names as they stand: no rule of
/// `rename_all` changes one. Else the first item is told that keeps them from being plain: something is told of its
/// attributes, it leaves the forms of the reader, it isn't plain by itself, its name comes twice, or it reaches itself at
/// one value. Where no item does, the root is.
#[tactic(auto, using(crate::proofs::Plainly::is_description, crate::proofs::Plainly::is_value, crate::proofs::Plainly::is_refused))]
pub fn describe(
    alloc: Global,
    items: &[DeriveInput],
    conversions: &Conversions,
    root: &Ty,
) -> Result<Value, DescribeError>
    ensures plain { IfOk result (λ _. IsPlainItems (conversions_view conversions.now) (map item_view items.now) (type_of (ty_view root.now))) }
    ensures document { IfOk result (λ v. IsDescription (conversions_view conversions.now) (map item_view items.now) (type_of (ty_view root.now)) (kept_view v)) }
    ensures value { IfOk result (λ v. kept_view v ≡ description_value_of (models_in (map item_view items.now)) (conversions_view conversions.now) (type_of (ty_view root.now))) }
    ensures refused { IfErr result (IsRefused (conversions_view conversions.now) (map item_view items.now) (type_of (ty_view root.now))) }
{
    have_sizes(conversions);
    match table_of(alloc, items, conversions) {
        Ok(table) => match by_table(alloc, &table, conversions, root) {
            Ok(described) => Ok(described),
            Err(refused) => Err(refused),
        },
        Err(_) => Err(DescribeError::Memory),
    }
}
