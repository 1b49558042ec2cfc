//! What holds of the items that a space emits: each law is the contract of a function that does nothing.
ghost use Rattle.space_items.specs.Laws.{SpacesEmitModules};

use history_laws::laws::tables_are_emitted;

/// Of the items that are emitted for what stands at an id nothing is told, they are within the forms of the reader of values, and
/// none reaches itself at one value, however they are read.
pub fn spaces_emit_modules()
    ensures { SpacesEmitModules }
{
    tables_are_emitted();
}
