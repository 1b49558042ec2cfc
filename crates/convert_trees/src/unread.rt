//! Stated values that aren't read: those that rules list, and then the default.
ghost use Rattle.std.specs.Prelude.{◌≡◌, ◌≤◌, [], ◌∷◌, Some, IfErr, IfOk, OnOk, option_map};
ghost use Rattle.schema_defs.specs.Texts.{Relations};
ghost use Rattle.json_value.specs.View.{kept_view as value_kept};
ghost use Rattle.schema_tree.specs.Fault.{fault_view, memory};
ghost use Rattle.convert_defs.specs.Values.{inner_of, listed_by, listed_in};
ghost use Rattle.row_findings.specs.Given.{source_view};
ghost use Rattle.row_findings.specs.View.{row_view, rule_view};
ghost use Rattle.tree_types.specs.View.{table_view, tree_view};
ghost use Rattle.convert_trees.specs.Keeping.{kept_view, values_view, with_before, with_before_if};
ghost use Rattle.merged_rows.specs.Starts.{path_by};
ghost use Rattle.convert_trees.specs.Told.{NoAnswer};
ghost use Rattle.listed_reading.specs.Unread.{first_of as first_value};
ghost use Rattle.convert_trees.specs.Unread.{rule_in, unread_by as unread_by_entry, unread_of, unread_values};

use crate::defaults::unread_default;
use crate::faults::text_fault;
use crate::keeping::{Kept, Unread, Values};
use crate::scope::Scope;
use listed_reading::{first_listed_by, first_unread_by};
use merged_rows::location_of;
use row_findings::{Row, RowRule, Source, Steps};
use schema_tree::{Fault, Texts};
use schema_types::Location;
use serde_json::Value;
use tree_types::{Tree, TreeTable, Wrap};

// The rule of a row that lists values.
fn rule_of<'d>(row: &Row<'d>) -> Option<RowRule<'d>>
    ensures { (r : Relations) → option_map rule_view result ≡ rule_in (row_view r row.now) }
{
    match row {
        Row::Ruled(_, rule) => Some(*rule),
        Row::Leaf(_) => None,
        Row::Reference(_) => None,
        Row::AsItIs(_) => None,
        Row::Option(_) => None,
        Row::Vec(_) => None,
        Row::Set(_) => None,
        Row::Array(_, _) => None,
        Row::Tuple { .. } => None,
        Row::Map(_, _) => None,
        Row::PatternMap(_, _) => None,
        Row::Struct { .. } => None,
        Row::Enum { .. } => None,
        Row::Merged(_) => None,
        Row::Refused(_) => None,
    }
}

fn place_of(scope: &Scope<'_, '_>, trail: &Vec<Steps<'_>>) -> Result<Location, Fault>
    ensures place { IfOk result (λ l. l ≡ path_by scope.now.start.now trail.now.items) }
    ensures memory { IfErr result (λ f. fault_view f ≡ memory) }
{
    match location_of(scope.alloc, scope.start, trail) {
        Ok(place) => Ok(place),
        Err(_) => Err(Fault::Memory),
    }
}

// What a newtype holds, which is asked of the values that its rule lists.
#[tactic(auto, using(crate::proofs::Held::atom_held))]
fn held<'r, 'd>(tree: &'r Tree<'d>) -> &'r Tree<'d>
    ensures { tree_view result.now ≡ inner_of (tree_view tree.now) }
{
    match tree {
        Tree::One(Wrap::Newtype { name: _, rule: _ }, held) => held,
        Tree::One(Wrap::Option, _) => tree,
        Tree::One(Wrap::Vec, _) => tree,
        Tree::One(Wrap::Set, _) => tree,
        Tree::One(Wrap::Array(_), _) => tree,
        Tree::Atom(_) => tree,
        Tree::Map(_, _) => tree,
        Tree::Tuple(_) => tree,
        Tree::Struct {
            name: _,
            closed: _,
            fields: _,
            rest: _,
        } => tree,
        Tree::Enum {
            name: _,
            closed: _,
            tag: _,
            variants: _,
        } => tree,
    }
}

// The first value that a rule lists and the tree doesn't read by the table.
fn unread_in_table<'d, T: Texts>(
    scope: &Scope<'d, '_>,
    texts: &mut T,
    trail: &Vec<Steps<'d>>,
    table: &TreeTable<'_>,
    rule: RowRule<'d>,
    tree: &Tree<'d>,
) -> Result<Option<&'d Value>, Fault>
    ensures found { IfOk result (λ o. option_map (λ v. value_kept v.now) o ≡ first_value (unread_by_entry (T.relations texts.old) (Some (table_view table.now)) (tree_view tree.now) (listed_by (rule_view rule.entry)))) }
    ensures refused { IfErr result (λ f. NoAnswer (path_by scope.now.start.now trail.now.items ∷ []) (T.faults texts.old) (T.faults texts.new) (fault_view f)) }
    ensures keeps { T.relations texts.new ≡ T.relations texts.old }
    ensures counts { T.faults texts.old ≤ T.faults texts.new }
{
    match first_unread_by(table, tree, rule, texts) {
        Ok(value) => Ok(value),
        Err(fault) => Err(text_fault(scope, trail, fault)),
    }
}

// The same by what is known.
fn unread_in<'d, T: Texts>(
    scope: &Scope<'d, '_>,
    texts: &mut T,
    trail: &Vec<Steps<'d>>,
    values: &Values<'d, '_, '_>,
    rule: RowRule<'d>,
    tree: &Tree<'d>,
) -> Result<Option<&'d Value>, Fault>
    ensures found { IfOk result (λ o. option_map (λ v. value_kept v.now) o ≡ first_value (unread_by_entry (T.relations texts.old) (values_view values.now).known (tree_view tree.now) (listed_by (rule_view rule.entry)))) }
    ensures refused { IfErr result (λ f. NoAnswer (path_by scope.now.start.now trail.now.items ∷ []) (T.faults texts.old) (T.faults texts.new) (fault_view f)) }
    ensures keeps { T.relations texts.new ≡ T.relations texts.old }
    ensures counts { T.faults texts.old ≤ T.faults texts.new }
{
    match values.known {
        Some(table) => unread_in_table(scope, texts, trail, table, rule, tree),
        None => Ok(first_listed_by(rule)),
    }
}

// The first value that a row lists and what its tree holds doesn't read.
fn unread_listed<'d, T: Texts>(
    scope: &Scope<'d, '_>,
    texts: &mut T,
    trail: &Vec<Steps<'d>>,
    values: &Values<'d, '_, '_>,
    row: &Row<'d>,
    tree: &Tree<'d>,
) -> Result<Option<&'d Value>, Fault>
    ensures found { IfOk result (λ o. option_map (λ v. value_kept v.now) o ≡ first_value (unread_by_entry (T.relations texts.old) (values_view values.now).known (inner_of (tree_view tree.now)) (listed_in (row_view (T.relations texts.old) row.now)))) }
    ensures refused { IfErr result (λ f. NoAnswer (path_by scope.now.start.now trail.now.items ∷ []) (T.faults texts.old) (T.faults texts.new) (fault_view f)) }
    ensures keeps { T.relations texts.new ≡ T.relations texts.old }
    ensures counts { T.faults texts.old ≤ T.faults texts.new }
{
    match rule_of(row) {
        Some(rule) => unread_in(scope, texts, trail, values, rule, held(tree)),
        None => Ok(None),
    }
}

// The first value that a schema states and its tree doesn't read.
fn unread_value<'d, T: Texts>(
    scope: &Scope<'d, '_>,
    texts: &mut T,
    trail: &Vec<Steps<'d>>,
    values: &Values<'d, '_, '_>,
    source: &Source<'d>,
    row: &Row<'d>,
    tree: &Tree<'d>,
) -> Result<Option<&'d Value>, Fault>
    ensures found { IfOk result (λ o. option_map (λ v. value_kept v.now) o ≡ first_value (unread_values (T.relations texts.old) (values_view values.now).known (source_view source.now) (row_view (T.relations texts.old) row.now) (tree_view tree.now))) }
    ensures refused { IfErr result (λ f. NoAnswer (path_by scope.now.start.now trail.now.items ∷ []) (T.faults texts.old) (T.faults texts.new) (fault_view f)) }
    ensures keeps { T.relations texts.new ≡ T.relations texts.old }
    ensures counts { T.faults texts.old ≤ T.faults texts.new }
{
    match unread_listed(scope, texts, trail, values, row, tree)? {
        Some(value) => Ok(Some(value)),
        None => unread_default(scope, texts, trail, values, source, row, tree),
    }
}

// Keeps the first value that a schema states and its tree doesn't read, before what was kept.
#[tactic(auto, using(crate::proofs::Ruled::some_kept, crate::proofs::Ruled::none_kept))]
fn keep_unread<'d, T: Texts>(
    scope: &Scope<'d, '_>,
    texts: &mut T,
    kept: &mut Kept<'d, '_, '_>,
    trail: &Vec<Steps<'d>>,
    source: &Source<'d>,
    row: &Row<'d>,
    tree: &Tree<'d>,
) -> Result<(), Fault>
    ensures notes { OnOk result ((kept_view kept.new).notes ≡ (kept_view kept.old).notes) }
    ensures merges { OnOk result ((kept_view kept.new).merges ≡ (kept_view kept.old).merges) }
    ensures values { OnOk result ((kept_view kept.new).values ≡ with_before (unread_of (T.relations texts.old) (kept_view kept.old).values.known (path_by scope.now.start.now trail.now.items) (source_view source.now) (row_view (T.relations texts.old) row.now) (tree_view tree.now)) (kept_view kept.old).values) }
    ensures refused { IfErr result (λ f. NoAnswer (path_by scope.now.start.now trail.now.items ∷ []) (T.faults texts.old) (T.faults texts.new) (fault_view f)) }
    ensures keeps { T.relations texts.new ≡ T.relations texts.old }
    ensures counts { T.faults texts.old ≤ T.faults texts.new }
{
    match unread_value(scope, texts, trail, &kept.values, source, row, tree)? {
        Some(value) => {
            let path = place_of(scope, trail)?;
            kept.values.unread = Some(Unread { path, value });
            Ok(())
        }
        None => Ok(()),
    }
}

/// The same, unless something was kept before both.
pub fn keep_unless<'d, T: Texts>(
    had: bool,
    scope: &Scope<'d, '_>,
    texts: &mut T,
    kept: &mut Kept<'d, '_, '_>,
    trail: &Vec<Steps<'d>>,
    source: &Source<'d>,
    row: &Row<'d>,
    tree: &Tree<'d>,
) -> Result<(), Fault>
    ensures notes { OnOk result ((kept_view kept.new).notes ≡ (kept_view kept.old).notes) }
    ensures merges { OnOk result ((kept_view kept.new).merges ≡ (kept_view kept.old).merges) }
    ensures values { OnOk result ((kept_view kept.new).values ≡ with_before_if had (unread_of (T.relations texts.old) (kept_view kept.old).values.known (path_by scope.now.start.now trail.now.items) (source_view source.now) (row_view (T.relations texts.old) row.now) (tree_view tree.now)) (kept_view kept.old).values) }
    ensures refused { IfErr result (λ f. NoAnswer (path_by scope.now.start.now trail.now.items ∷ []) (T.faults texts.old) (T.faults texts.new) (fault_view f)) }
    ensures keeps { T.relations texts.new ≡ T.relations texts.old }
    ensures counts { T.faults texts.old ≤ T.faults texts.new }
{
    if had {
        return Ok(());
    }
    keep_unread(scope, texts, kept, trail, source, row, tree)?;
    Ok(())
}
