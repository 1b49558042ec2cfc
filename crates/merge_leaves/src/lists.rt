//! Merging the sizes of lists.
ghost use Rattle.std.specs.Prelude.{◌≡◌, ◌||◌, IfOk, Some, option_map};
ghost use Rattle.schema_types.specs.View.{array_view, lists_of};
ghost use Rattle.merge_defs.specs.Outcome.{either};
ghost use Rattle.merge_defs.specs.Arrays.{joined_rules, kept_lists as kept_lists_of, two_rules};
ghost use Rattle.merge_parts.specs.View.{notes_view};
ghost use Rattle.merge_parts.specs.Steps.{Steps};
ghost use Rattle.merge_leaves.specs.Sizes.{list_sizes_view, rules_of_lists, says_nothing_of_lists};

use crate::sizes::{greatest, least, sizes_cross};
use merge_parts::{MergeKind, MergeNote, never_unless};
use schema_types::ArrayValidation;
use std::alloc::AllocError;

/// The keywords of lists that hold no schema.
#[derive(Clone, Copy)]
pub struct ListSizes {
    pub max_items: Option<u32>,
    pub min_items: Option<u32>,
    pub unique_items: Option<bool>,
}

/// Those of a side.
pub fn list_sizes(array: &ArrayValidation) -> ListSizes
    ensures { rules_of_lists (array_view array.now) ≡ Some (list_sizes_view result) }
{
    ListSizes {
        max_items: array.max_items,
        min_items: array.min_items,
        unique_items: array.unique_items,
    }
}

fn either_flag(first: Option<bool>, second: Option<bool>) -> Option<bool>
    ensures { result ≡ either ◌||◌ first second }
{
    match (first, second) {
        (Some(a), Some(b)) => Some(a || b),
        (Some(a), None) => Some(a),
        (None, Some(b)) => Some(b),
        (None, None) => None,
    }
}

fn joined_sizes(first: ListSizes, second: ListSizes) -> ListSizes
    ensures { list_sizes_view result ≡ joined_rules (list_sizes_view first) (list_sizes_view second) }
{
    ListSizes {
        max_items: least(first.max_items, second.max_items),
        min_items: greatest(first.min_items, second.min_items),
        unique_items: either_flag(first.unique_items, second.unique_items),
    }
}

/// The sizes that both sides admit, or never; `is_array` says that the merged type is array.
pub fn two_list_sizes(
    notes: &mut Vec<MergeNote>,
    is_array: bool,
    first: ListSizes,
    second: ListSizes,
) -> Result<Option<ListSizes>, AllocError>
    ensures { IfOk result (λ o. Steps (notes_view notes.old.items) (notes_view notes.new.items) (two_rules is_array (list_sizes_view first) (list_sizes_view second)) (option_map list_sizes_view o)) }
{
    let joined = joined_sizes(first, second);
    if sizes_cross(joined.min_items, joined.max_items) {
        never_unless(notes, is_array, MergeKind::Clash)?;
        return Ok(None);
    }
    Ok(Some(joined))
}

fn says_nothing(array: &ArrayValidation) -> bool
    ensures { result ≡ says_nothing_of_lists (array_view array.now) }
{
    (array.items.is_none() && array.additional_items.is_none() && array.contains.is_none())
        && (array.max_items.is_none() && array.min_items.is_none() && array.unique_items.is_none())
}

/// The keywords of lists, absent where none of them is left.
#[tactic(auto, using(crate::proofs::Seen::lists_kept))]
pub fn kept_lists(array: ArrayValidation) -> Option<ArrayValidation>
    ensures { lists_of (option_map array_view result) ≡ kept_lists_of (array_view array) }
{
    if says_nothing(&array) {
        return None;
    }
    Some(array)
}
