//! What holds of the tables that a space comes to, and of its entries: each law is the contract of a function that does nothing.

ghost use Rattle.history_laws.specs.Laws.{ItemsAgree, ItemsMeanItems, ItemsStand, SchemasAgree, SchemasMeanItems, SchemasStand, TablesAreEmittable, TablesAreEmitted, TablesAreFit, TablesAreFormed, TablesAreHeld};

use space_defs::laws::spaces_emit_tables;

/// In each table that a space comes to references lead and end, and names of fields differ.
pub fn tables_are_fit()
    ensures { TablesAreFit }
{}

/// With names it can be written.
pub fn tables_are_emittable()
    ensures { TablesAreEmittable }
{}

/// Its trees, with names, are formed.
pub fn tables_are_formed()
    ensures { TablesAreFormed }
{}

/// Each of its trees stands in the space.
pub fn tables_are_held()
    ensures { TablesAreHeld }
{}

/// A schema that is added stands at the id that is told, with its names, and what stood at an id stands there still.
pub fn schemas_stand()
    ensures { SchemasStand }
{}

/// An item that references lead to stands at the id that is told.
pub fn items_stand()
    ensures { ItemsStand }
{}

/// What a schema that is added admits its tree takes, one way at a time.
pub fn schemas_agree()
    ensures { SchemasAgree }
{}

/// What is admitted where references lead their item takes.
pub fn items_agree()
    ensures { ItemsAgree }
{}

/// What is emitted for an id is what is emitted for the tree that stands there.
pub fn tables_are_emitted()
    ensures { TablesAreEmitted }
{
    spaces_emit_tables();
}

/// What a schema that was added admits is what the items read that are emitted for its id, one way at a time, whatever has come since.
pub fn schemas_mean_items()
    ensures { SchemasMeanItems }
{
    spaces_emit_tables();
}

/// What is admitted where references lead is what the items read that are emitted for the id of their item.
pub fn items_mean_items()
    ensures { ItemsMeanItems }
{
    spaces_emit_tables();
}
