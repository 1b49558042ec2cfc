//! Trees that get names and come to a space, one after another.
ghost use Rattle.std.specs.Prelude.{[], IfOk, map};
ghost use Rattle.entry_defs.specs.Table.{Table};
ghost use Rattle.entry_types.specs.View.{id_view};
ghost use Rattle.tree_types.specs.View.{target_entry, tree_view};
ghost use Rattle.typify_convert.specs.Placing.{Plans, PlansMore};

use entry_space::{EntrySpace, TypeId};
use good_names::GivenNames;
use space_trees::{Led, place_tree, targets_space};
use std::alloc::{AllocError, Global};
use tree_names::{named_targets, named_tree};
use tree_types::{Target, Tree};

/// The names that are given, where references lead, and the entries.
#[derive(Drop)]
pub(crate) struct Plan {
    pub names: GivenNames,
    pub led: Led,
    pub space: EntrySpace,
}

/// Nothing came yet. It takes no memory.
#[tactic(auto, using(crate::proofs::Planned::empty_plans))]
pub(crate) fn empty_plan(alloc: Global) -> Plan
    ensures { Plans result (record { targets = []; trees = [] }) }
{
    Plan {
        names: GivenNames::new(alloc),
        led: Led::new(alloc),
        space: EntrySpace::new(alloc),
    }
}

/// The items that references lead to.
pub(crate) fn plan_of<'d>(
    alloc: Global,
    targets: &Vec<(Target, Tree<'d>)>,
) -> Result<Plan, AllocError>
    ensures { IfOk result (λ p. Plans p (record { targets = map target_entry targets.now.items; trees = [] })) }
{
    let named = named_targets(alloc, targets)?;
    let opened = targets_space(alloc, &named.targets)?;
    Ok(Plan {
        names: named.names,
        led: opened.led,
        space: opened.space,
    })
}

/// One more tree, and its id.
pub(crate) fn place_next(
    plan: &mut Plan,
    alloc: Global,
    tree: &Tree<'_>,
) -> Result<TypeId, AllocError>
    ensures { IfOk result (λ i. (t : Table) → Plans plan.old t → PlansMore plan.new t (tree_view tree.now) (id_view i)) }
{
    let named = named_tree(alloc, &mut plan.names, tree)?;
    let id = place_tree(&mut plan.space, alloc, &plan.led, None, &named)?;
    Ok(id)
}
