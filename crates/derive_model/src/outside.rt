//! The first item outside the forms.
ghost use Rattle.std.specs.Prelude.{◌≡◌, map, IfOk};
ghost use Rattle.syntax_trees.specs.Item.{item_view};
ghost use Rattle.conversion_table.specs.Conversions.{conversions_view};
ghost use Rattle.container_defs.specs.Forms.{names_of, is_outside};
ghost use Rattle.derive_ast.specs.Views.{container_view};
ghost use Rattle.derive_model.specs.Items.{first_from};

use conversion_table::Conversions;
use derive_ast::Container;
use item_causes::is_outside;
use item_names::ItemNames;
use std::alloc::{AllocError, Global};

// A place as an error tells it, which has a u32: there is no memory for more items.
fn told_place(place: usize) -> Result<u32, AllocError>
    ensures { IfOk result (λ n. n ≡ place) }
{
    match u32::try_from(place) {
        Ok(told) => Ok(told),
        Err(_) => Err(AllocError),
    }
}

/// The first item outside the forms.
#[tactic(auto, using(crate::proofs::FirstOutside::next_place, crate::proofs::FirstOutside::this_place, crate::proofs::FirstOutside::no_place))]
pub(crate) fn first_outside(
    alloc: Global,
    names: &ItemNames<'_>,
    conversions: &Conversions,
    read: &[Container<'_>],
) -> Result<Option<u32>, AllocError>
    ensures { IfOk result (λ o. o ≡ first_from (is_outside (names_of (map item_view names.now.items.now)) (conversions_view conversions.now)) 0 (map container_view read.now)) }
{
    for place in 0..read.len() {
        if is_outside(alloc, names, conversions, &read[place])? {
            let told = told_place(place)?;
            return Ok(Some(told));
        }
    }
    Ok(None)
}
