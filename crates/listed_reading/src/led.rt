//! What references lead to.
ghost use Rattle.std.specs.Prelude.{◌≡◌, IfSome, option_map};
ghost use Rattle.entry_defs.specs.Table.{same_target, target_item};
ghost use Rattle.tree_types.specs.View.{item_in, table_view, target_view, tree_view};
ghost use Rattle.listed_reading.specs.Targets.{Among};

use tree_types::{Target, Tree, TreeTable};

fn is_same(one: &Target, other: &Target) -> bool
    ensures { result ≡ same_target (target_view one.now) (target_view other.now) }
{
    match (one, other) {
        (Target::Root, Target::Root) => true,
        (Target::Definition(x), Target::Definition(y)) => x.as_str() == y.as_str(),
        _ => false,
    }
}

/// The tree of the item that a reference to the target leads to.
pub fn led_to<'t, 'd>(table: &'t TreeTable<'d>, target: &Target) -> Option<&'t Tree<'d>>
    ensures item { option_map (λ x. item_in (tree_view x.now)) result ≡ target_item (table_view table.now) (target_view target.now) }
    ensures among { IfSome result (λ x. Among x.now table.now.targets.items) }
{
    for entry in &table.targets {
        if is_same(target, &entry.0) {
            return Some(&entry.1);
        }
    }
    None
}
