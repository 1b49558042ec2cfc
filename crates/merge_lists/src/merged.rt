//! The items that are merged by place, and how they end.
ghost use Rattle.std.specs.Prelude.{◌≡◌, length, IfErr, IfOk, if◌then◌else◌};
ghost use Rattle.schema_defs.specs.Schema.{Schema as SchemaOf};
ghost use Rattle.schema_types.specs.View.{schemas_view};
ghost use Rattle.merge_defs.specs.Outcome.{Outcome, mapped};
ghost use Rattle.merge_defs.specs.Arrays.{at_clash, at_most, clash_at, goes_on as goes_on_of, is_above_zero as is_above_zero_of, is_full as is_full_of, least_items as least_items_of, nothing_more, stands as stands_of};
ghost use Rattle.merge_leaves.specs.Sizes.{list_sizes_view};
ghost use Rattle.merge_parts.specs.View.{notes_view};
ghost use Rattle.merge_parts.specs.declared.fault.MergeFault.TheVariants.{Memory};
ghost use Rattle.merge_steps.specs.declared.stop.Stop.TheVariants.{Fault};
ghost use Rattle.merge_steps.specs.Ends.{Ends};
ghost use Rattle.merge_lists.specs.Plans.{does_go_on, end_view, merged_view, put_front};

use crate::plan::Around;
use merge_parts::{MergeFault, MergeKind, MergeNote, never_unless};
use merge_steps::Stop;
use schema_types::Schema;

/// How merged items end: with so many as may stand, before the place of two that clash, or with what binds the rest.
#[derive(Clone, Copy)]
pub enum End {
    AtMost,
    AtClash(u32),
    GoesOn,
}

/// Merged items.
#[derive(Drop)]
pub struct MergedPlaces {
    pub items: Vec<Schema>,
    pub end: End,
}

fn has_so_many(most: Option<u32>, count: usize) -> bool
    ensures { result ≡ is_full_of most count }
{
    match most {
        None => false,
        Some(most) => 0 < most && most as usize == count,
    }
}

/// Whether there are as many items as may stand.
pub fn is_full(around: &Around, items: &Vec<Schema>) -> bool
    ensures { result ≡ is_full_of (list_sizes_view around.now.sizes).max_items (length items.now.items) }
{
    has_so_many(around.sizes.max_items, items.len())
}

fn end_of(is_full: bool) -> End
    ensures { end_view result ≡ (if is_full then at_most else goes_on_of) }
{
    if is_full { End::AtMost } else { End::GoesOn }
}

/// The items after which no place is left to merge, or none may stand.
#[tactic(auto, using(crate::proofs::Clashing::put_nothing))]
pub fn at_end(around: &Around, items: Vec<Schema>) -> MergedPlaces
    ensures { merged_view result ≡ put_front (schemas_view items.items) (nothing_more (if is_full_of (list_sizes_view around.now.sizes).max_items (length items.items) then at_most else goes_on_of)) }
{
    let end = end_of(is_full(around, &items));
    MergedPlaces { items, end }
}

// Items that must be there: one, where nothing is said.
fn least_items(least: Option<u32>) -> u32
    ensures { result ≡ least_items_of least }
{
    match least {
        None => 1,
        Some(least) => least,
    }
}

fn stands(least: Option<u32>) -> bool
    ensures { result ≡ stands_of least }
{
    least.is_some()
}

pub(crate) fn is_above_zero(least: Option<u32>) -> bool
    ensures { result ≡ is_above_zero_of least }
{
    match least {
        None => false,
        Some(least) => 0 < least,
    }
}

// The number of items; a list with more than 32 bits count isn't merged.
fn count_of(items: &Vec<Schema>) -> Result<u32, Stop>
    ensures count { IfOk result (λ n. n ≡ length items.now.items) }
    ensures memory { IfErr result (λ e. e ≡ Fault Memory) }
{
    match u32::try_from(items.len()) {
        Ok(count) => Ok(count),
        Err(_) => Err(Stop::Fault(MergeFault::Memory)),
    }
}

#[tactic(auto, using(crate::proofs::Clashing::put_nothing))]
fn before_clash(items: Vec<Schema>, count: u32) -> MergedPlaces
    ensures { merged_view result ≡ put_front (schemas_view items.items) (nothing_more (at_clash count)) }
{
    MergedPlaces {
        items,
        end: End::AtClash(count),
    }
}

/// The items before the place of two that clash, or never where more must be there.
#[tactic(auto, using(crate::proofs::Clashing::clash_never, crate::proofs::Clashing::clash_stops, merge_steps::proofs::Ending::memory))]
pub fn clashed(
    notes: &mut Vec<MergeNote>,
    around: &Around,
    items: Vec<Schema>,
) -> Result<MergedPlaces, Stop>
    ensures { (join : SchemaOf → SchemaOf → Outcome SchemaOf) → Ends merged_view (notes_view notes.old.items) (notes_view notes.new.items) (mapped (put_front (schemas_view items.items)) (clash_at join around.now.is_array (list_sizes_view around.now.sizes) (length items.items))) result }
{
    let count = count_of(&items)?;
    if count < least_items(around.sizes.min_items) {
        never_unless(
            notes,
            around.is_array && stands(around.sizes.min_items),
            MergeKind::Clash,
        )?;
        return Err(Stop::Never);
    }
    Ok(before_clash(items, count))
}

/// Whether what binds the rest goes on after the items.
pub fn goes_on(merged: &MergedPlaces) -> bool
    ensures { result ≡ does_go_on (merged_view merged.now).end }
{
    match merged.end {
        End::AtMost => false,
        End::AtClash(_) => false,
        End::GoesOn => true,
    }
}
