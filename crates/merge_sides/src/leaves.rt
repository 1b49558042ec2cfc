//! The keywords of two objects that hold no schema.
ghost use Rattle.std.specs.Prelude.{List, option_map, string_bytes};
ghost use Rattle.schema_defs.specs.Schema.{Schema as SchemaOf};
ghost use Rattle.schema_types.specs.View.{numbers_view, object_view, texts_view, types_view};
ghost use Rattle.schema_sameness.specs.Parts.{plain_in};
ghost use Rattle.merge_defs.specs.Outcome.{Note, Outcome, where_both};
ghost use Rattle.merge_defs.specs.Leaves.{two_formats, two_numbers, two_texts, two_types};
ghost use Rattle.merge_parts.specs.View.{notes_view};
ghost use Rattle.merge_steps.specs.Ends.{Ends, Goes};
ghost use Rattle.merge_sides.specs.Leaves.{LeavesOf, leaves_then, leaves_view};

use crate::met::Leaves;
use merge_leaves::{both_formats, both_numbers, both_texts, both_types, is_only, values_of};
use merge_parts::MergeNote;
use merge_steps::{Stop, answered};
use schema_types::{InstanceType, NumberValidation, SchemaObject, StringValidation, Types};
use std::alloc::Global;

#[tactic(auto, using(merge_steps::proofs::Ending::memory, crate::proofs::Going::quiet_ends))]
fn types(
    alloc: Global,
    first: &Option<Types>,
    second: &Option<Types>,
) -> Result<Option<Types>, Stop>
    ensures { (ns : List Note) → Ends (option_map types_view) ns ns (where_both two_types (option_map types_view first.now) (option_map types_view second.now)) result }
{
    let found = both_types(alloc, first, second)?;
    answered(found)
}

#[tactic(auto, using(merge_steps::proofs::Ending::memory, merge_steps::proofs::Ending::answered_ends))]
fn format(
    alloc: Global,
    notes: &mut Vec<MergeNote>,
    first: &Option<String>,
    second: &Option<String>,
) -> Result<Option<String>, Stop>
    ensures { Ends (option_map string_bytes) (notes_view notes.old.items) (notes_view notes.new.items) (where_both two_formats (option_map string_bytes first.now) (option_map string_bytes second.now)) result }
{
    let found = both_formats(alloc, notes, first, second)?;
    answered(found)
}

#[tactic(auto, using(merge_steps::proofs::Ending::memory, merge_steps::proofs::Ending::answered_ends))]
fn number(
    notes: &mut Vec<MergeNote>,
    is_whole: bool,
    first: &Option<NumberValidation>,
    second: &Option<NumberValidation>,
) -> Result<Option<NumberValidation>, Stop>
    ensures { Ends (option_map numbers_view) (notes_view notes.old.items) (notes_view notes.new.items) (where_both (two_numbers is_whole) (option_map numbers_view first.now) (option_map numbers_view second.now)) result }
{
    let found = both_numbers(notes, is_whole, first, second)?;
    answered(found)
}

#[tactic(auto, using(merge_steps::proofs::Ending::memory, merge_steps::proofs::Ending::answered_ends))]
fn string(
    alloc: Global,
    notes: &mut Vec<MergeNote>,
    is_whole: bool,
    first: &Option<StringValidation>,
    second: &Option<StringValidation>,
) -> Result<Option<StringValidation>, Stop>
    ensures { Ends (option_map texts_view) (notes_view notes.old.items) (notes_view notes.new.items) (where_both (two_texts is_whole) (option_map texts_view first.now) (option_map texts_view second.now)) result }
{
    let found = both_texts(alloc, notes, is_whole, first, second)?;
    answered(found)
}

/// The merged leaves of two objects, with the values that each lists, or never.
pub(crate) fn leaves(
    alloc: Global,
    notes: &mut Vec<MergeNote>,
    first: &SchemaObject,
    second: &SchemaObject,
) -> Result<Leaves, Stop>
    ensures { (k : LeavesOf → Outcome SchemaOf) → Goes (λ l. k (leaves_view l)) (notes_view notes.old.items) (notes_view notes.new.items) (leaves_then (plain_in (object_view first.now)) (plain_in (object_view second.now)) k) result }
{
    let types = types(alloc, &first.types, &second.types)?;
    let format = format(alloc, notes, &first.format, &second.format)?;
    let is_integer = is_only(InstanceType::Integer, &types);
    let number = number(notes, is_integer, &first.number, &second.number)?;
    let is_text = is_only(InstanceType::Text, &types);
    let string = string(alloc, notes, is_text, &first.string, &second.string)?;
    let values = values_of(alloc, &first.enum_values, &first.const_value)?;
    let other_values = values_of(alloc, &second.enum_values, &second.const_value)?;
    Ok(Leaves {
        types,
        format,
        number,
        string,
        values,
        other_values,
    })
}
