//! What stated defaults come to.
ghost use Rattle.std.specs.Prelude.{◌≡◌, ◌≤◌, IfOk, IsErrOf};
ghost use Rattle.schema_defs.specs.Faults.{Rises};
ghost use Rattle.json_value.specs.View.{kept_view};
ghost use Rattle.tree_types.specs.View.{table_view, tree_view};
ghost use Rattle.default_defs.specs.Supplied.{supplied};
ghost use Rattle.default_reading.specs.Seen.{found_view};

use crate::counting::{count_targets, count_tree, sum};
use crate::found::Found;
use crate::reading::also;
use crate::room::{MOST_LEVELS, Room};
use schema_tree::{TextFault, Texts};
use serde_json::Value;
use tree_types::{Tree, TreeTable};

// By as many levels as there are stated defaults, and one more.
fn found_by_count<'d, 'k, T: Texts>(
    table: &TreeTable<'k>,
    tree: &Tree<'d>,
    value: &Value,
    texts: &mut T,
) -> Result<Found, TextFault>
    ensures answer { IfOk result (λ x. found_view x ≡ supplied (table_view table.now) (T.relations texts.old) (tree_view tree.now) (kept_view value.now)) }
    ensures failed { IsErrOf result TextFault.Failed → Rises (T.faults texts.old) (T.faults texts.new) }
    ensures keeps { T.relations texts.new ≡ T.relations texts.old }
    ensures counts { T.faults texts.old ≤ T.faults texts.new }
{
    let of_targets = count_targets(table)?;
    let of_tree = count_tree(tree)?;
    let inside = sum(of_targets, of_tree)?;
    let room = Room {
        inside,
        levels: MOST_LEVELS,
    };
    let found = also(table, room, Found::Ended, tree, value, texts)?;
    Ok(found)
}

/// What the value comes to as a stated default of the tree, by the items of the table. It fails where memory runs out, or where the judge of
/// texts failed. Where more references are followed at one value than lead to different items, or more than 1,000 levels of reading stand in one
/// another, the answer is want of memory.
pub fn default_found<'d, 'k, T: Texts>(
    table: &TreeTable<'k>,
    tree: &Tree<'d>,
    value: &Value,
    texts: &mut T,
) -> Result<Found, TextFault>
    ensures answer { IfOk result (λ x. found_view x ≡ supplied (table_view table.now) (T.relations texts.old) (tree_view tree.now) (kept_view value.now)) }
    ensures failed { IsErrOf result TextFault.Failed → Rises (T.faults texts.old) (T.faults texts.new) }
    ensures keeps { T.relations texts.new ≡ T.relations texts.old }
    ensures counts { T.faults texts.old ≤ T.faults texts.new }
{
    // Most leave out no field with a default, and the stated defaults of the table needn't be counted for them.
    let room = Room {
        inside: 0,
        levels: MOST_LEVELS,
    };
    let alone = also(table, room, Found::Ended, tree, value, texts)?;
    match alone {
        Found::Refused => Ok(Found::Refused),
        Found::Ended => Ok(Found::Ended),
        Found::Endless => {
            let found = found_by_count(table, tree, value, texts)?;
            Ok(found)
        }
    }
}
