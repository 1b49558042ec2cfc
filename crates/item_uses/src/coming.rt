//! Which items a type comes to.
ghost use Rattle.std.specs.Prelude.{IfOk};
ghost use Rattle.value_models.specs.ContainersView.{containers_in};
ghost use Rattle.value_models.specs.TypeView.{type_view};
ghost use Rattle.item_uses.specs.Reached.{AreCome};

use crate::places::Places;
use crate::reached::reached;
use crate::uses::{rows_of, starts_of};
use std::alloc::{AllocError, Global};
use value_models::ValueType;

/// For each item, whether the type comes to it: whether it is named in the type, or in the body of an item that is come to.
/// It fails where memory runs out, and takes time in step with what the types hold.
pub fn come(alloc: Global, places: &Places<'_>, ty: &ValueType) -> Result<Vec<bool>, AllocError>
    ensures { IfOk result (λ flags. AreCome (containers_in places.now.containers.now) (type_view ty.now) flags.items) }
{
    let rows = rows_of(alloc, places, places.containers.containers())?;
    let starts = starts_of(alloc, places, ty)?;
    let flags = reached(alloc, &rows, &starts)?;
    Ok(flags)
}
