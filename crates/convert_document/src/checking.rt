//! Values that the schemas of a document state.
ghost use Rattle.std.specs.Prelude.{◌≡◌, ◌⊎◌, None, IfErr, OnOk, option_map};
ghost use Rattle.schema_tree.specs.Fault.{fault_view, memory};
ghost use Rattle.convert_trees.specs.Keeping.{unread_view};
ghost use Rattle.convert_document.specs.Unread.{IsToldUnread, TellsUnread};

use convert_trees::Unread;
use schema_tree::Fault;

fn invalid(unread: Unread<'_>) -> Fault
    ensures { TellsUnread (unread_view unread.entry) (fault_view result) }
{
    match unread.value.clone() {
        Ok(value) => Fault::InvalidValue {
            path: unread.path,
            value,
        },
        Err(_) => Fault::Memory,
    }
}

/// Tells of the first stated value that isn't read.
pub(crate) fn check_read(unread: Option<Unread<'_>>) -> Result<(), Fault>
    ensures read { OnOk result (unread.entry ≡ None) }
    ensures told { IfErr result (λ f. IsToldUnread (option_map unread_view unread.entry) (fault_view f)) }
{
    match unread {
        None => Ok(()),
        Some(unread) => Err(invalid(unread)),
    }
}
