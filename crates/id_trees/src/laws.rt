//! What holds of the ids of the tables that a space comes to: each law is the contract of a function that does nothing.

ghost use Rattle.id_trees.specs.Laws.{IdsHaveTrees, IdsTakeTheirTrees, ItemsMeanIds, SchemasMeanIds};

use entry_laws::laws::ids_take_trees;

/// At each id stands a tree.
pub fn ids_have_trees()
    ensures { IdsHaveTrees }
{}

/// An id takes what each tree takes that stands there.
pub fn ids_take_their_trees()
    ensures { IdsTakeTheirTrees }
{
    ids_take_trees();
}

/// What a schema that was added admits its id takes, one way at a time, whatever has come since.
pub fn schemas_mean_ids()
    ensures { SchemasMeanIds }
{
    ids_take_trees();
}

/// What is admitted where references lead the id of their item takes.
pub fn items_mean_ids()
    ensures { ItemsMeanIds }
{
    ids_take_trees();
}
