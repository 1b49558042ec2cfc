//! What holds of all spaces: each law is the contract of a function that does nothing.

ghost use Rattle.space_defs.specs.Held.{SpacesEmitTables};

use emit_defs::laws::boxes_are_exact;
use use_graph::laws::{leading_is_decided, reaching_is_decided};

/// A space that holds a table emits what the table does.
pub fn spaces_emit_tables()
    ensures { SpacesEmitTables }
{
    reaching_is_decided();
    leading_is_decided();
    boxes_are_exact();
}
