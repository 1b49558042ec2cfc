//! The recursion.
ghost use Rattle.std.specs.Prelude.{◌≡◌, ◌++◌, ◌∷◌, [], Some, IfErr, OnOk, map, option_map};
ghost use Rattle.schema_defs.specs.Texts.{Relations};
ghost use Rattle.schema_tree.specs.Document.{view as document_seen};
ghost use Rattle.convert_defs.specs.Convert.{Handed};
ghost use Rattle.convert_defs.specs.Row.{row_parts};
ghost use Rattle.convert_walks.specs.Merging.{merged_at};
ghost use Rattle.convert_walks.specs.Spot.{part_spot, part_schema};
ghost use Rattle.convert_walks.specs.Tree.{instead, parts_trees, standing_tree, tree_at};
ghost use Rattle.merge_defs.specs.Outcome.{Outcome};
ghost use Rattle.merge_parts.specs.Steps.{Steps as StepsOf};
ghost use Rattle.merge_parts.specs.View.{notes_view};
ghost use Rattle.schema_defs.specs.Schema.{Schema as SchemaOf};
ghost use Rattle.schema_types.specs.View.{schema_view};
ghost use Rattle.merge_parts.specs.declared.fault.MergeFault.TheVariants.{Memory};
ghost use Rattle.merged_rows.specs.Rows.{standing_view};
ghost use Rattle.merged_rows.specs.Starts.{spot_of};
ghost use Rattle.row_findings.specs.Given.{source_view};
ghost use Rattle.row_findings.specs.View.{branch_view, part_view, row_view};
ghost use Rattle.document_merges.specs.Listed.{listed_view};
ghost use Rattle.document_merges.specs.Merges.{merge_of_row, merges_below, merges_in, merges_view};

use crate::listed::{Listed, listed_parts};
use crate::merge::{Merge, MergeEnd};
use crate::scope::Scope;
use merge_parts::{MergeFault, MergeNote};
use merged_rows::{
    Merging, Standing, is_deep, merge_row, merged_parts, place_of_part, standing, start_at,
};
use row_findings::{Branch, Finding, Part, Row, Source, Steps};
use row_table::finding;
use schema_types::Schema;

// ---- the recursion

/// Adds what the rows of the conversion tree merge that begins at the end of the trail, where so many levels are left; where none is left,
/// nothing. It fails for want of memory alone.
#[cycle(gather)]
pub(crate) fn gather<'d>(
    scope: &Scope<'d, '_>,
    merges: &mut Vec<Merge>,
    trail: &Vec<Steps<'d>>,
    levels: u32,
    source: &Source<'d>,
) -> Result<(), MergeFault>
    ensures found { OnOk result ((r : Relations) (h : Handed) → merges_view merges.new.items ≡ merges_view merges.old.items ++ merges_in (tree_at r (document_seen scope.now.document.now) scope.now.depth levels (spot_of scope.now.start.now trail.now.items h) (source_view source.now))) }
    ensures memory { IfErr result (λ e. e ≡ Memory) }
{
    if levels == 0 {
        return Ok(());
    }
    if is_deep(scope.start, trail, scope.depth) {
        return Ok(());
    }
    let found = finding(scope.alloc, scope.document, source)?;
    gather_found(scope, merges, trail, levels - 1, source, &found)
}

// What was found of the schema.
#[cycle(gather)]
fn gather_found<'d>(
    scope: &Scope<'d, '_>,
    merges: &mut Vec<Merge>,
    trail: &Vec<Steps<'d>>,
    levels: u32,
    source: &Source<'d>,
    found: &Finding<'d>,
) -> Result<(), MergeFault>
    ensures found { OnOk result ((r : Relations) (h : Handed) → merges_view merges.new.items ≡ merges_view merges.old.items ++ merges_below r (document_seen scope.now.document.now) scope.now.depth levels (spot_of scope.now.start.now trail.now.items h) (source_view source.now) (map branch_view found.now.branches.items) (row_view r found.now.row)) }
    ensures memory { IfErr result (λ e. e ≡ Memory) }
{
    match merged_parts(&found.row) {
        Some(parts) => gather_merged(scope, merges, trail, levels, source, parts),
        None => gather_row(scope, merges, trail, levels, found),
    }
}

// A row that doesn't merge.
#[cycle(gather)]
fn gather_row<'d>(
    scope: &Scope<'d, '_>,
    merges: &mut Vec<Merge>,
    trail: &Vec<Steps<'d>>,
    levels: u32,
    found: &Finding<'d>,
) -> Result<(), MergeFault>
    ensures found { OnOk result ((r : Relations) (h : Handed) → merges_view merges.new.items ≡ merges_view merges.old.items ++ merges_in (parts_trees r (document_seen scope.now.document.now) scope.now.depth (tree_at r (document_seen scope.now.document.now) scope.now.depth levels) (spot_of scope.now.start.now trail.now.items h) (map branch_view found.now.branches.items) (row_parts (row_view r found.now.row)))) }
    ensures memory { IfErr result (λ e. e ≡ Memory) }
{
    let parts = listed_parts(scope.alloc, &found.row)?;
    gather_parts(scope, merges, trail, levels, &found.branches, &parts)?;
    Ok(())
}

#[cycle(gather)]
fn gather_parts<'d>(
    scope: &Scope<'d, '_>,
    merges: &mut Vec<Merge>,
    trail: &Vec<Steps<'d>>,
    levels: u32,
    branches: &Vec<Branch<'d>>,
    parts: &[Listed<'_, 'd>],
) -> Result<(), MergeFault>
    ensures found { OnOk result ((r : Relations) (h : Handed) → merges_view merges.new.items ≡ merges_view merges.old.items ++ merges_in (parts_trees r (document_seen scope.now.document.now) scope.now.depth (tree_at r (document_seen scope.now.document.now) scope.now.depth levels) (spot_of scope.now.start.now trail.now.items h) (map branch_view branches.now.items) (listed_view parts.now))) }
    ensures memory { IfErr result (λ e. e ≡ Memory) }
{
    for listed in parts {
        gather_part(scope, merges, trail, levels, branches, listed.part)?;
    }
    Ok(())
}

#[cycle(gather)]
fn gather_part<'d>(
    scope: &Scope<'d, '_>,
    merges: &mut Vec<Merge>,
    trail: &Vec<Steps<'d>>,
    levels: u32,
    branches: &Vec<Branch<'d>>,
    part: &Part<'d>,
) -> Result<(), MergeFault>
    ensures found { OnOk result ((r : Relations) (h : Handed) → merges_view merges.new.items ≡ merges_view merges.old.items ++ merges_in (tree_at r (document_seen scope.now.document.now) scope.now.depth levels (part_spot (spot_of scope.now.start.now trail.now.items h) (map branch_view branches.now.items) (part_view part.now)) (part_schema (part_view part.now)))) }
    ensures memory { IfErr result (λ e. e ≡ Memory) }
{
    let place = place_of_part(scope.alloc, scope.start, trail, branches, part)?;
    let inside = Scope {
        alloc: scope.alloc,
        document: scope.document,
        depth: scope.depth,
        start: start_at(scope.start, &place),
        budget: scope.budget,
    };
    gather(&inside, merges, &place.trail, levels, &part.source)?;
    Ok(())
}

// ---- rows that merge

fn push_refused(
    merges: &mut Vec<Merge>,
    notes: Vec<MergeNote>,
    end: MergeEnd,
) -> Result<(), MergeFault>
    ensures found { OnOk result (merges_view merges.new.items ≡ merges_view merges.old.items ++ merges_view (record { notes = notes; end = end } ∷ [])) }
    ensures memory { IfErr result (λ e. e ≡ Memory) }
{
    merges.push(Merge { notes, end })?;
    Ok(())
}

#[cycle(gather)]
fn gather_merged<'d>(
    scope: &Scope<'d, '_>,
    merges: &mut Vec<Merge>,
    trail: &Vec<Steps<'d>>,
    levels: u32,
    source: &Source<'d>,
    parts: &Vec<Part<'d>>,
) -> Result<(), MergeFault>
    ensures found { OnOk result ((r : Relations) (h : Handed) → merges_view merges.new.items ≡ merges_view merges.old.items ++ (merge_of_row (spot_of scope.now.start.now trail.now.items h) (source_view source.now) (merged_at (document_seen scope.now.document.now) scope.now.depth levels (spot_of scope.now.start.now trail.now.items h) (source_view source.now) (map part_view parts.now.items)) ∷ merges_in (standing_tree r (document_seen scope.now.document.now) scope.now.depth (tree_at r (document_seen scope.now.document.now) scope.now.depth levels) (instead (spot_of scope.now.start.now trail.now.items h) (source_view source.now) (merged_at (document_seen scope.now.document.now) scope.now.depth levels (spot_of scope.now.start.now trail.now.items h) (source_view source.now) (map part_view parts.now.items)))))) }
    ensures memory { IfErr result (λ e. e ≡ Memory) }
{
    let merging = Merging {
        alloc: scope.alloc,
        document: scope.document,
        most: scope.depth,
        levels,
        budget: scope.budget,
    };
    let mut notes = Vec::new(scope.alloc);
    match merge_row(&merging, &mut notes, scope.start, trail, source, parts) {
        Ok(found) => gather_standing(scope, merges, trail, levels, source, notes, found),
        Err(MergeFault::Memory) => Err(MergeFault::Memory),
        Err(MergeFault::Depth(walk)) => push_refused(merges, notes, MergeEnd::Deep(walk)),
        Err(MergeFault::Unsupported(kind)) => {
            push_refused(merges, notes, MergeEnd::Unsupported(kind))
        }
    }
}

// The merge, and what the rows of what stands in its place merge.
#[cycle(gather)]
fn gather_standing<'d>(
    scope: &Scope<'d, '_>,
    merges: &mut Vec<Merge>,
    trail: &Vec<Steps<'d>>,
    levels: u32,
    source: &Source<'d>,
    notes: Vec<MergeNote>,
    found: Option<Schema>,
) -> Result<(), MergeFault>
    ensures found { OnOk result ((r : Relations) (h : Handed) (o : Outcome SchemaOf) → StepsOf [] (notes_view notes.items) o (option_map schema_view found) → merges_view merges.new.items ≡ merges_view merges.old.items ++ (merge_of_row (spot_of scope.now.start.now trail.now.items h) (source_view source.now) o ∷ merges_in (standing_tree r (document_seen scope.now.document.now) scope.now.depth (tree_at r (document_seen scope.now.document.now) scope.now.depth levels) (instead (spot_of scope.now.start.now trail.now.items h) (source_view source.now) o)))) }
    ensures memory { IfErr result (λ e. e ≡ Memory) }
{
    let standing = standing(scope.alloc, scope.start, trail, source, found)?;
    let mut inside = Vec::new(scope.alloc);
    gather_inside(scope, &mut inside, levels, &standing)?;
    merges.push(Merge {
        notes,
        end: MergeEnd::Stands(standing),
    })?;
    push_all(merges, inside)?;
    Ok(())
}

fn push_all(merges: &mut Vec<Merge>, more: Vec<Merge>) -> Result<(), MergeFault>
    ensures found { OnOk result (merges_view merges.new.items ≡ merges_view merges.old.items ++ merges_view more.items) }
    ensures memory { IfErr result (λ e. e ≡ Memory) }
{
    for merge in more {
        merges.push(merge)?;
    }
    Ok(())
}

#[cycle(gather)]
fn gather_inside(
    scope: &Scope<'_, '_>,
    merges: &mut Vec<Merge>,
    levels: u32,
    standing: &Standing,
) -> Result<(), MergeFault>
    ensures found { OnOk result ((r : Relations) (h : Handed) (s : SchemaOf) → merges_view merges.new.items ≡ merges_view merges.old.items ++ merges_in (standing_tree r (document_seen scope.now.document.now) scope.now.depth (tree_at r (document_seen scope.now.document.now) scope.now.depth levels) (Some (standing_view h s standing.now)))) }
    ensures memory { IfErr result (λ e. e ≡ Memory) }
{
    let inside = Scope {
        alloc: scope.alloc,
        document: &*scope.document,
        depth: scope.depth,
        start: &standing.start,
        budget: scope.budget,
    };
    let trail = Vec::new(scope.alloc);
    let source = Source::Written(&standing.schema);
    gather(&inside, merges, &trail, levels, &source)
}
