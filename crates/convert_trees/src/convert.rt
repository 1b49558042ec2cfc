//! The recursion.
ghost use Rattle.std.specs.Prelude.{◌≡◌, ◌≤◌, ℕ, List, suc, [], ◌∷◌, ◌++◌, true, false, None, IfErr, IfOk, OnOk, is_some, map, option_map};
ghost use Rattle.schema_defs.specs.Texts.{Relations};
ghost use Rattle.schema_defs.specs.Schema.{Document as DocumentOf, Schema as SchemaOf};
ghost use Rattle.schema_types.specs.View.{schema_view};
ghost use Rattle.schema_tree.specs.Document.{view as document_seen};
ghost use Rattle.schema_tree.specs.Fault.{fault_view, memory};
ghost use Rattle.convert_defs.specs.Convert.{Handed, named_by};
ghost use Rattle.convert_defs.specs.Faults.{finding_faults};
ghost use Rattle.convert_defs.specs.Row.{row_parts};
ghost use Rattle.convert_defs.specs.Table.{finding_of};
ghost use Rattle.convert_walks.specs.Spot.{part_schema, part_spot, spot_inside};
ghost use Rattle.convert_walks.specs.Told.{merge_faults, placed_note};
ghost use Rattle.convert_walks.specs.Tree.{deep_branches, entry_at, if_merged, parts_trees, tree_at};
ghost use Rattle.row_findings.specs.Given.{source_view};
ghost use Rattle.row_findings.specs.View.{branch_view, finding_view, note_view, part_view, row_view, steps_view};
ghost use Rattle.tree_types.specs.View.{tree_view};
ghost use Rattle.merge_walks.specs.Carried.{has_more_steps};
ghost use Rattle.merge_defs.specs.Outcome.{Note as MergeNoteOf, Outcome};
ghost use Rattle.merged_rows.specs.Rows.{handed_on};
ghost use Rattle.merged_rows.specs.Starts.{handed_to, path_by, place_spot, spot_of, walk_by};
ghost use Rattle.merged_rows.specs.Told.{TellsMerge};
ghost use Rattle.document_merges.specs.Listed.{listed_view};
ghost use Rattle.document_merges.specs.Merges.{end_view, merge_of_row, merge_view, merges_in};
ghost use Rattle.row_trees.specs.Build.{built};
ghost use Rattle.convert_trees.specs.Keeping.{kept_view, with_before_if};
ghost use Rattle.convert_trees.specs.Told.{Begins, IsTold, IsToldOf, NoAnswer, Refuses, RefusesOf};
ghost use Rattle.convert_trees.specs.Unread.{unread_of};

use crate::faults::text_fault;
use crate::keeping::Kept;
use crate::listed::listed_parts;
use crate::names::named;
use crate::notes::{keep_merge_notes, keep_notes};
use crate::own::check_own;
use crate::scope::Scope;
use crate::unread::keep_unless;
use document_merges::{Listed, Merge, MergeEnd, finding};
use merge_parts::MergeFault;
use merged_rows::{
    Place, Standing, is_deep, merge_fault, merged_parts, place_inside, place_of_part, start_at,
    too_deep,
};
use row_findings::{Branch, Finding, Part, PartKind, Row, Source, Steps};
use row_trees::row_tree;
use schema_tree::{Fault, Texts};
use schema_types::Schema;
use std::collections::VecDeque;
use tree_types::Tree;

fn found<'d>(scope: &Scope<'d, '_>, source: &Source<'d>) -> Result<Finding<'d>, Fault>
    ensures finding { IfOk result (λ f. (r : Relations) → finding_view r f ≡ finding_of r (document_seen scope.now.document.now) (source_view source.now)) }
    ensures memory { IfErr result (λ f. fault_view f ≡ memory) }
{
    match finding(scope.alloc, scope.document, source) {
        Ok(finding) => Ok(finding),
        Err(_) => Err(Fault::Memory),
    }
}

// Each branch is within the steps that a walk may have. The first that isn't is told.
fn check_branches<'d>(
    scope: &Scope<'d, '_>,
    trail: &Vec<Steps<'d>>,
    branches: &Vec<Branch<'d>>,
) -> Result<(), Fault>
    ensures fine { OnOk result ((r : Relations) (d : DocumentOf) (h : Handed) → deep_branches r d scope.now.depth (spot_of scope.now.start.now trail.now.items h) (map branch_view branches.now.items) ≡ []) }
    ensures refused { IfErr result (λ f. (r : Relations) (d : DocumentOf) (n : ℕ) (h : Handed) (old : ℕ) (new : ℕ) → Refuses r d scope.now.depth n old new (deep_branches r d scope.now.depth (spot_of scope.now.start.now trail.now.items h) (map branch_view branches.now.items)) (fault_view f)) }
{
    for branch in branches {
        check_branch(scope, trail, branch)?;
    }
    Ok(())
}

fn check_branch<'d>(
    scope: &Scope<'d, '_>,
    trail: &Vec<Steps<'d>>,
    branch: &Branch<'d>,
) -> Result<(), Fault>
    ensures fine { OnOk result ((r : Relations) (d : DocumentOf) (h : Handed) → deep_branches r d scope.now.depth (spot_of scope.now.start.now trail.now.items h) (branch_view branch.now ∷ []) ≡ []) }
    ensures refused { IfErr result (λ f. (r : Relations) (d : DocumentOf) (n : ℕ) (h : Handed) (old : ℕ) (new : ℕ) → Refuses r d scope.now.depth n old new (deep_branches r d scope.now.depth (spot_of scope.now.start.now trail.now.items h) (branch_view branch.now ∷ [])) (fault_view f)) }
{
    let source = Source::Written(branch.schema);
    let place = inside(scope, trail, branch.place, &source)?;
    let start = start_at(scope.start, &place);
    if is_deep(start, &place.trail, scope.depth) {
        return Err(too_deep(scope.alloc, start, &place.trail));
    }
    Ok(())
}

fn inside<'d>(
    scope: &Scope<'d, '_>,
    trail: &Vec<Steps<'d>>,
    steps: Steps<'d>,
    source: &Source<'d>,
) -> Result<Place<'d>, Fault>
    ensures place { IfOk result (λ p. (g h : Handed) → place_spot scope.now.start.now p h ≡ spot_inside (spot_of scope.now.start.now trail.now.items g) h (steps_view steps.entry) (source_view source.now)) }
    ensures memory { IfErr result (λ f. fault_view f ≡ memory) }
{
    match place_inside(scope.alloc, scope.start, trail, steps, source) {
        Ok(place) => Ok(place),
        Err(_) => Err(Fault::Memory),
    }
}

fn tree_of_row<'d, T: Texts>(
    scope: &Scope<'d, '_>,
    trail: &Vec<Steps<'d>>,
    name: &'d str,
    row: &Row<'d>,
    trees: VecDeque<Tree<'d>>,
    texts: &mut T,
) -> Result<Tree<'d>, Fault>
    ensures answer { IfOk result (λ t. tree_view t ≡ built name.now (row_view (T.relations texts.old) row.now) (map tree_view trees.entry.items)) }
    ensures refused { IfErr result (λ f. NoAnswer (path_by scope.now.start.now trail.now.items ∷ []) (T.faults texts.old) (T.faults texts.new) (fault_view f)) }
    ensures keeps { T.relations texts.new ≡ T.relations texts.old }
    ensures counts { T.faults texts.old ≤ T.faults texts.new }
{
    match row_tree(scope.alloc, name, row, trees, texts) {
        Ok(tree) => Ok(tree),
        Err(fault) => Err(text_fault(scope, trail, fault)),
    }
}

// The tree of a row; the first value that its schema states and it doesn't read is kept, before what its parts state, unless one was kept before them.
fn finished<'d, T: Texts>(
    scope: &Scope<'d, '_>,
    texts: &mut T,
    kept: &mut Kept<'d, '_, '_>,
    trail: &Vec<Steps<'d>>,
    had: bool,
    name: &'d str,
    source: &Source<'d>,
    row: &Row<'d>,
    trees: VecDeque<Tree<'d>>,
) -> Result<Tree<'d>, Fault>
    ensures answer { IfOk result (λ t. tree_view t ≡ built name.now (row_view (T.relations texts.old) row.now) (map tree_view trees.entry.items)) }
    ensures notes { OnOk result ((kept_view kept.new).notes ≡ (kept_view kept.old).notes) }
    ensures merges { OnOk result ((kept_view kept.new).merges ≡ (kept_view kept.old).merges) }
    ensures values { IfOk result (λ t. (kept_view kept.new).values ≡ with_before_if had (unread_of (T.relations texts.old) (kept_view kept.old).values.known (path_by scope.now.start.now trail.now.items) (source_view source.now) (row_view (T.relations texts.old) row.now) (tree_view t)) (kept_view kept.old).values) }
    ensures refused { IfErr result (λ f. NoAnswer (path_by scope.now.start.now trail.now.items ∷ []) (T.faults texts.old) (T.faults texts.new) (fault_view f)) }
    ensures keeps { T.relations texts.new ≡ T.relations texts.old }
    ensures counts { T.faults texts.old ≤ T.faults texts.new }
{
    let tree = tree_of_row(scope, trail, name, row, trees, texts)?;
    keep_unless(had, scope, texts, kept, trail, source, row, &tree)?;
    Ok(tree)
}

fn push_tree<'d>(trees: &mut VecDeque<Tree<'d>>, tree: Tree<'d>) -> Result<(), Fault>
    ensures trees { OnOk result (map tree_view trees.new.items ≡ map tree_view trees.old.items ++ tree_view tree.entry ∷ []) }
    ensures memory { IfErr result (λ f. fault_view f ≡ memory) }
{
    match trees.push_back(tree) {
        Ok(_) => Ok(()),
        Err(_) => Err(Fault::Memory),
    }
}

// A schema whose row doesn't merge is checked: it has no fault itself, and each branch is within the steps that are left.
// The notes of its row are added.
fn checked<'d, T: Texts>(
    scope: &Scope<'d, '_>,
    texts: &mut T,
    kept: &mut Kept<'d, '_, '_>,
    trail: &Vec<Steps<'d>>,
    source: &Source<'d>,
    finding: &Finding<'d>,
) -> Result<(), Fault>
    ensures fine { OnOk result ((d : DocumentOf) → finding_faults (T.relations texts.old) d scope.now.depth (finding_view (T.relations texts.old) finding.now) ≡ []) }
    ensures branches { OnOk result ((r : Relations) (d : DocumentOf) (h : Handed) → deep_branches r d scope.now.depth (spot_of scope.now.start.now trail.now.items h) (finding_view (T.relations texts.old) finding.now).branches ≡ []) }
    ensures notes { OnOk result ((h : Handed) → (kept_view kept.new).notes ≡ (kept_view kept.old).notes ++ map (placed_note (spot_of scope.now.start.now trail.now.items h) (finding_view (T.relations texts.old) finding.now).branches) (finding_view (T.relations texts.old) finding.now).notes) }
    ensures values { OnOk result ((kept_view kept.new).values ≡ (kept_view kept.old).values) }
    ensures merges { OnOk result ((kept_view kept.new).merges ≡ (kept_view kept.old).merges) }
    ensures refused { IfErr result (λ f. (n : ℕ) (h : Handed) → (finding_view (T.relations texts.old) finding.now) ≡ finding_of (T.relations texts.old) (document_seen scope.now.document.now) (source_view source.now) → if_merged (finding_view (T.relations texts.old) finding.now).row ≡ None → has_more_steps scope.now.depth (walk_by scope.now.start.now.walk trail.now.items) ≡ false → Refuses (T.relations texts.old) (document_seen scope.now.document.now) scope.now.depth n (T.faults texts.old) (T.faults texts.new) (tree_at (T.relations texts.old) (document_seen scope.now.document.now) scope.now.depth (suc n) (spot_of scope.now.start.now trail.now.items h) (source_view source.now)) (fault_view f)) }
    ensures keeps { T.relations texts.new ≡ T.relations texts.old }
    ensures counts { T.faults texts.old ≤ T.faults texts.new }
{
    check_own(scope, trail, source, finding, texts)?;
    keep_notes(scope, trail, finding, kept)?;
    check_branches(scope, trail, &finding.branches)?;
    Ok(())
}

/// What the schema at the end of the trail is converted to, where so many levels are left. The notes are added in the order of conversion,
/// and what its rows merge is taken from the merges that are left, which begin with that. It fails with the first fault, or where memory
/// runs out or the judge of texts failed; too few levels are answered by want of memory.
#[cycle(convert)]
pub fn convert<'d, T: Texts>(
    scope: &Scope<'d, '_>,
    texts: &mut T,
    kept: &mut Kept<'d, '_, '_>,
    trail: &Vec<Steps<'d>>,
    levels: u32,
    handed: Option<&'d str>,
    source: &Source<'d>,
) -> Result<Tree<'d>, Fault>
    requires { Begins (kept_view kept.old).merges (merges_in (tree_at (T.relations texts.old) (document_seen scope.now.document.now) scope.now.depth levels (spot_of scope.now.start.now trail.now.items (option_map (λ n. n.now) handed)) (source_view source.now))) }
    ensures entry { IfOk result (λ t. tree_view t ≡ entry_at (T.relations texts.old) (document_seen scope.now.document.now) scope.now.depth levels (spot_of scope.now.start.now trail.now.items (option_map (λ n. n.now) handed.entry)) (source_view source.now)) }
    ensures told { OnOk result (IsTold (T.relations texts.old) (document_seen scope.now.document.now) scope.now.depth levels (tree_at (T.relations texts.old) (document_seen scope.now.document.now) scope.now.depth levels (spot_of scope.now.start.now trail.now.items (option_map (λ n. n.now) handed.entry)) (source_view source.now)) (kept_view kept.old) (kept_view kept.new)) }
    ensures refused { IfErr result (λ f. Refuses (T.relations texts.old) (document_seen scope.now.document.now) scope.now.depth levels (T.faults texts.old) (T.faults texts.new) (tree_at (T.relations texts.old) (document_seen scope.now.document.now) scope.now.depth levels (spot_of scope.now.start.now trail.now.items (option_map (λ n. n.now) handed.entry)) (source_view source.now)) (fault_view f)) }
    ensures keeps { T.relations texts.new ≡ T.relations texts.old }
    ensures counts { T.faults texts.old ≤ T.faults texts.new }
{
    if levels == 0 {
        return Err(Fault::Memory);
    }
    if is_deep(scope.start, trail, scope.depth) {
        return Err(too_deep(scope.alloc, scope.start, trail));
    }
    let finding = found(scope, source)?;
    let tree = convert_found(
        scope,
        texts,
        kept,
        trail,
        levels - 1,
        handed,
        source,
        &finding,
    )?;
    Ok(tree)
}

// What is made of what was found.
#[cycle(convert)]
fn convert_found<'d, T: Texts>(
    scope: &Scope<'d, '_>,
    texts: &mut T,
    kept: &mut Kept<'d, '_, '_>,
    trail: &Vec<Steps<'d>>,
    levels: u32,
    handed: Option<&'d str>,
    source: &Source<'d>,
    finding: &Finding<'d>,
) -> Result<Tree<'d>, Fault>
    requires finding { (r : Relations) → finding_view r finding.now ≡ finding_of r (document_seen scope.now.document.now) (source_view source.now) }
    requires walk { has_more_steps scope.now.depth (walk_by scope.now.start.now.walk trail.now.items) ≡ false }
    requires begins { Begins (kept_view kept.old).merges (merges_in (tree_at (T.relations texts.old) (document_seen scope.now.document.now) scope.now.depth (suc levels) (spot_of scope.now.start.now trail.now.items (option_map (λ n. n.now) handed)) (source_view source.now))) }
    ensures entry { IfOk result (λ t. tree_view t ≡ entry_at (T.relations texts.old) (document_seen scope.now.document.now) scope.now.depth (suc levels) (spot_of scope.now.start.now trail.now.items (option_map (λ n. n.now) handed.entry)) (source_view source.now)) }
    ensures told { OnOk result (IsTold (T.relations texts.old) (document_seen scope.now.document.now) scope.now.depth levels (tree_at (T.relations texts.old) (document_seen scope.now.document.now) scope.now.depth (suc levels) (spot_of scope.now.start.now trail.now.items (option_map (λ n. n.now) handed.entry)) (source_view source.now)) (kept_view kept.old) (kept_view kept.new)) }
    ensures refused { IfErr result (λ f. Refuses (T.relations texts.old) (document_seen scope.now.document.now) scope.now.depth levels (T.faults texts.old) (T.faults texts.new) (tree_at (T.relations texts.old) (document_seen scope.now.document.now) scope.now.depth (suc levels) (spot_of scope.now.start.now trail.now.items (option_map (λ n. n.now) handed.entry)) (source_view source.now)) (fault_view f)) }
    ensures keeps { T.relations texts.new ≡ T.relations texts.old }
    ensures counts { T.faults texts.old ≤ T.faults texts.new }
{
    match merged_parts(&finding.row) {
        Some(_) => convert_merged(scope, texts, kept, trail, levels, handed, source, finding),
        None => convert_plain(scope, texts, kept, trail, levels, handed, source, finding),
    }
}

// A schema whose row doesn't merge.
#[cycle(convert)]
fn convert_plain<'d, T: Texts>(
    scope: &Scope<'d, '_>,
    texts: &mut T,
    kept: &mut Kept<'d, '_, '_>,
    trail: &Vec<Steps<'d>>,
    levels: u32,
    handed: Option<&'d str>,
    source: &Source<'d>,
    finding: &Finding<'d>,
) -> Result<Tree<'d>, Fault>
    requires finding { (r : Relations) → finding_view r finding.now ≡ finding_of r (document_seen scope.now.document.now) (source_view source.now) }
    requires walk { has_more_steps scope.now.depth (walk_by scope.now.start.now.walk trail.now.items) ≡ false }
    requires plain { (r : Relations) → if_merged (row_view r finding.now.row) ≡ None }
    requires begins { Begins (kept_view kept.old).merges (merges_in (tree_at (T.relations texts.old) (document_seen scope.now.document.now) scope.now.depth (suc levels) (spot_of scope.now.start.now trail.now.items (option_map (λ n. n.now) handed)) (source_view source.now))) }
    ensures entry { IfOk result (λ t. tree_view t ≡ entry_at (T.relations texts.old) (document_seen scope.now.document.now) scope.now.depth (suc levels) (spot_of scope.now.start.now trail.now.items (option_map (λ n. n.now) handed.entry)) (source_view source.now)) }
    ensures told { OnOk result (IsTold (T.relations texts.old) (document_seen scope.now.document.now) scope.now.depth levels (tree_at (T.relations texts.old) (document_seen scope.now.document.now) scope.now.depth (suc levels) (spot_of scope.now.start.now trail.now.items (option_map (λ n. n.now) handed.entry)) (source_view source.now)) (kept_view kept.old) (kept_view kept.new)) }
    ensures refused { IfErr result (λ f. Refuses (T.relations texts.old) (document_seen scope.now.document.now) scope.now.depth levels (T.faults texts.old) (T.faults texts.new) (tree_at (T.relations texts.old) (document_seen scope.now.document.now) scope.now.depth (suc levels) (spot_of scope.now.start.now trail.now.items (option_map (λ n. n.now) handed.entry)) (source_view source.now)) (fault_view f)) }
    ensures keeps { T.relations texts.new ≡ T.relations texts.old }
    ensures counts { T.faults texts.old ≤ T.faults texts.new }
{
    checked(scope, texts, kept, trail, source, finding)?;
    let tree = convert_row(scope, texts, kept, trail, levels, handed, source, finding)?;
    Ok(tree)
}

// The tree of a row that was checked.
#[cycle(convert)]
fn convert_row<'d, T: Texts>(
    scope: &Scope<'d, '_>,
    texts: &mut T,
    kept: &mut Kept<'d, '_, '_>,
    trail: &Vec<Steps<'d>>,
    levels: u32,
    handed: Option<&'d str>,
    source: &Source<'d>,
    finding: &Finding<'d>,
) -> Result<Tree<'d>, Fault>
    requires { Begins (kept_view kept.old).merges (merges_in (parts_trees (T.relations texts.old) (document_seen scope.now.document.now) scope.now.depth (λ o s. tree_at (T.relations texts.old) (document_seen scope.now.document.now) scope.now.depth levels o s) (spot_of scope.now.start.now trail.now.items (option_map (λ n. n.now) handed)) (map branch_view finding.now.branches.items) (row_parts (row_view (T.relations texts.old) finding.now.row)))) }
    ensures entry { IfOk result (λ t. tree_view t ≡ built (named_by (option_map (λ n. n.now) handed.entry) (source_view source.now)) (row_view (T.relations texts.old) finding.now.row) (map (λ p. entry_at (T.relations texts.old) (document_seen scope.now.document.now) scope.now.depth levels (part_spot (spot_of scope.now.start.now trail.now.items (option_map (λ n. n.now) handed.entry)) (map branch_view finding.now.branches.items) p) (part_schema p)) (row_parts (row_view (T.relations texts.old) finding.now.row)))) }
    ensures told { IfOk result (λ t. IsToldOf (T.relations texts.old) (document_seen scope.now.document.now) scope.now.depth levels (path_by scope.now.start.now trail.now.items) (source_view source.now) (row_view (T.relations texts.old) finding.now.row) (tree_view t) (parts_trees (T.relations texts.old) (document_seen scope.now.document.now) scope.now.depth (λ o s. tree_at (T.relations texts.old) (document_seen scope.now.document.now) scope.now.depth levels o s) (spot_of scope.now.start.now trail.now.items (option_map (λ n. n.now) handed.entry)) (map branch_view finding.now.branches.items) (row_parts (row_view (T.relations texts.old) finding.now.row))) (kept_view kept.old) (kept_view kept.new)) }
    ensures refused { IfErr result (λ f. RefusesOf (T.relations texts.old) (document_seen scope.now.document.now) scope.now.depth levels (path_by scope.now.start.now trail.now.items) (T.faults texts.old) (T.faults texts.new) (parts_trees (T.relations texts.old) (document_seen scope.now.document.now) scope.now.depth (λ o s. tree_at (T.relations texts.old) (document_seen scope.now.document.now) scope.now.depth levels o s) (spot_of scope.now.start.now trail.now.items (option_map (λ n. n.now) handed.entry)) (map branch_view finding.now.branches.items) (row_parts (row_view (T.relations texts.old) finding.now.row))) (fault_view f)) }
    ensures keeps { T.relations texts.new ≡ T.relations texts.old }
    ensures counts { T.faults texts.old ≤ T.faults texts.new }
{
    let had = kept.values.unread.is_some();
    let parts = listed_parts(scope, &finding.row)?;
    let trees = convert_parts(
        scope,
        texts,
        kept,
        trail,
        levels,
        handed,
        &finding.branches,
        &parts,
    )?;
    let name = named(handed, source);
    let tree = finished(
        scope,
        texts,
        kept,
        trail,
        had,
        name,
        source,
        &finding.row,
        trees,
    )?;
    Ok(tree)
}

#[cycle(convert)]
fn convert_parts<'d, T: Texts>(
    scope: &Scope<'d, '_>,
    texts: &mut T,
    kept: &mut Kept<'d, '_, '_>,
    trail: &Vec<Steps<'d>>,
    levels: u32,
    handed: Option<&'d str>,
    branches: &Vec<Branch<'d>>,
    parts: &[Listed<'_, 'd>],
) -> Result<VecDeque<Tree<'d>>, Fault>
    requires { Begins (kept_view kept.old).merges (merges_in (parts_trees (T.relations texts.old) (document_seen scope.now.document.now) scope.now.depth (λ o s. tree_at (T.relations texts.old) (document_seen scope.now.document.now) scope.now.depth levels o s) (spot_of scope.now.start.now trail.now.items (option_map (λ n. n.now) handed)) (map branch_view branches.now.items) (listed_view parts.now))) }
    ensures entry { IfOk result (λ ts. map tree_view ts.items ≡ map (λ p. entry_at (T.relations texts.old) (document_seen scope.now.document.now) scope.now.depth levels (part_spot (spot_of scope.now.start.now trail.now.items (option_map (λ n. n.now) handed.entry)) (map branch_view branches.now.items) p) (part_schema p)) (listed_view parts.now)) }
    ensures told { OnOk result (IsTold (T.relations texts.old) (document_seen scope.now.document.now) scope.now.depth levels (parts_trees (T.relations texts.old) (document_seen scope.now.document.now) scope.now.depth (λ o s. tree_at (T.relations texts.old) (document_seen scope.now.document.now) scope.now.depth levels o s) (spot_of scope.now.start.now trail.now.items (option_map (λ n. n.now) handed.entry)) (map branch_view branches.now.items) (listed_view parts.now)) (kept_view kept.old) (kept_view kept.new)) }
    ensures refused { IfErr result (λ f. Refuses (T.relations texts.old) (document_seen scope.now.document.now) scope.now.depth levels (T.faults texts.old) (T.faults texts.new) (parts_trees (T.relations texts.old) (document_seen scope.now.document.now) scope.now.depth (λ o s. tree_at (T.relations texts.old) (document_seen scope.now.document.now) scope.now.depth levels o s) (spot_of scope.now.start.now trail.now.items (option_map (λ n. n.now) handed.entry)) (map branch_view branches.now.items) (listed_view parts.now)) (fault_view f)) }
    ensures keeps { T.relations texts.new ≡ T.relations texts.old }
    ensures counts { T.faults texts.old ≤ T.faults texts.new }
{
    let mut trees = VecDeque::new(scope.alloc);
    for listed in parts {
        let tree = convert_part(
            scope,
            texts,
            kept,
            trail,
            levels,
            handed,
            branches,
            listed.part,
        )?;
        push_tree(&mut trees, tree)?;
    }
    Ok(trees)
}

fn part_place<'d>(
    scope: &Scope<'d, '_>,
    trail: &Vec<Steps<'d>>,
    branches: &Vec<Branch<'d>>,
    part: &Part<'d>,
) -> Result<Place<'d>, Fault>
    ensures place { IfOk result (λ p. (h : Handed) → place_spot scope.now.start.now p (handed_to h (part_view part.now)) ≡ part_spot (spot_of scope.now.start.now trail.now.items h) (map branch_view branches.now.items) (part_view part.now)) }
    ensures memory { IfErr result (λ f. fault_view f ≡ memory) }
{
    match place_of_part(scope.alloc, scope.start, trail, branches, part) {
        Ok(place) => Ok(place),
        Err(_) => Err(Fault::Memory),
    }
}

// The name that is handed to a part.
fn name_for<'d>(handed: Option<&'d str>, part: &Part<'d>) -> Option<&'d str>
    ensures { option_map (λ n. n.now) result ≡ handed_to (option_map (λ n. n.now) handed.entry) (part_view part.now) }
{
    match part.kind {
        PartKind::Child => None,
        PartKind::OfBranch => None,
        PartKind::Lone => handed,
        PartKind::Made => handed,
    }
}

#[cycle(convert)]
fn convert_part<'d, T: Texts>(
    scope: &Scope<'d, '_>,
    texts: &mut T,
    kept: &mut Kept<'d, '_, '_>,
    trail: &Vec<Steps<'d>>,
    levels: u32,
    handed: Option<&'d str>,
    branches: &Vec<Branch<'d>>,
    part: &Part<'d>,
) -> Result<Tree<'d>, Fault>
    requires { Begins (kept_view kept.old).merges (merges_in (tree_at (T.relations texts.old) (document_seen scope.now.document.now) scope.now.depth levels (part_spot (spot_of scope.now.start.now trail.now.items (option_map (λ n. n.now) handed)) (map branch_view branches.now.items) (part_view part.now)) (part_schema (part_view part.now)))) }
    ensures entry { IfOk result (λ t. tree_view t ≡ entry_at (T.relations texts.old) (document_seen scope.now.document.now) scope.now.depth levels (part_spot (spot_of scope.now.start.now trail.now.items (option_map (λ n. n.now) handed.entry)) (map branch_view branches.now.items) (part_view part.now)) (part_schema (part_view part.now))) }
    ensures told { OnOk result (IsTold (T.relations texts.old) (document_seen scope.now.document.now) scope.now.depth levels (tree_at (T.relations texts.old) (document_seen scope.now.document.now) scope.now.depth levels (part_spot (spot_of scope.now.start.now trail.now.items (option_map (λ n. n.now) handed.entry)) (map branch_view branches.now.items) (part_view part.now)) (part_schema (part_view part.now))) (kept_view kept.old) (kept_view kept.new)) }
    ensures refused { IfErr result (λ f. Refuses (T.relations texts.old) (document_seen scope.now.document.now) scope.now.depth levels (T.faults texts.old) (T.faults texts.new) (tree_at (T.relations texts.old) (document_seen scope.now.document.now) scope.now.depth levels (part_spot (spot_of scope.now.start.now trail.now.items (option_map (λ n. n.now) handed.entry)) (map branch_view branches.now.items) (part_view part.now)) (part_schema (part_view part.now))) (fault_view f)) }
    ensures keeps { T.relations texts.new ≡ T.relations texts.old }
    ensures counts { T.faults texts.old ≤ T.faults texts.new }
{
    let place = part_place(scope, trail, branches, part)?;
    let inside = Scope {
        alloc: scope.alloc,
        document: scope.document,
        depth: scope.depth,
        start: start_at(scope.start, &place),
    };
    let name = name_for(handed, part);
    let tree = convert(
        &inside,
        texts,
        kept,
        &place.trail,
        levels,
        name,
        &part.source,
    )?;
    Ok(tree)
}

// ---- rows that merge

// The next of the merges that are left.
fn next_merge<'d>(kept: &mut Kept<'d, '_, '_>) -> Result<&'d Merge, Fault>
    ensures next { IfOk result (λ m. (kept_view kept.old).merges ≡ merge_view m.now ∷ (kept_view kept.new).merges) }
    ensures notes { OnOk result ((kept_view kept.new).notes ≡ (kept_view kept.old).notes) }
    ensures values { OnOk result ((kept_view kept.new).values ≡ (kept_view kept.old).values) }
    ensures memory { IfErr result (λ f. fault_view f ≡ memory) }
{
    let next = kept.merges.next;
    match kept.merges.all.get(next) {
        Some(merge) => {
            kept.merges.next = next + 1;
            Ok(merge)
        }
        None => Err(Fault::Memory),
    }
}

// What is told of a merge that ends without an answer.
fn refused_merge<'d>(scope: &Scope<'d, '_>, trail: &Vec<Steps<'d>>, end: &MergeEnd) -> Fault
    ensures { (r : Relations) (d : DocumentOf) (most n : ℕ) (h : Handed) (s : SchemaOf) (o : Outcome SchemaOf) (ns : List MergeNoteOf) → end_view end.now ns ≡ merge_of_row (spot_of scope.now.start.now trail.now.items h) s o → TellsMerge (merge_faults r d most n (spot_of scope.now.start.now trail.now.items h) o) (fault_view result) }
{
    match end {
        MergeEnd::Stands(_) => Fault::Memory,
        MergeEnd::Deep(walk) => match walk.try_clone(scope.alloc) {
            Ok(walk) => merge_fault(scope.alloc, scope.start, trail, MergeFault::Depth(walk)),
            Err(_) => Fault::Memory,
        },
        MergeEnd::Unsupported(kind) => {
            merge_fault(
                scope.alloc,
                scope.start,
                trail,
                MergeFault::Unsupported(*kind),
            )
        }
    }
}

#[cycle(convert)]
fn convert_merged<'d, T: Texts>(
    scope: &Scope<'d, '_>,
    texts: &mut T,
    kept: &mut Kept<'d, '_, '_>,
    trail: &Vec<Steps<'d>>,
    levels: u32,
    handed: Option<&'d str>,
    source: &Source<'d>,
    finding: &Finding<'d>,
) -> Result<Tree<'d>, Fault>
    requires finding { (r : Relations) → finding_view r finding.now ≡ finding_of r (document_seen scope.now.document.now) (source_view source.now) }
    requires walk { has_more_steps scope.now.depth (walk_by scope.now.start.now.walk trail.now.items) ≡ false }
    requires merged { (r : Relations) → is_some (if_merged (row_view r finding.now.row)) ≡ true }
    requires begins { Begins (kept_view kept.old).merges (merges_in (tree_at (T.relations texts.old) (document_seen scope.now.document.now) scope.now.depth (suc levels) (spot_of scope.now.start.now trail.now.items (option_map (λ n. n.now) handed)) (source_view source.now))) }
    ensures entry { IfOk result (λ t. tree_view t ≡ entry_at (T.relations texts.old) (document_seen scope.now.document.now) scope.now.depth (suc levels) (spot_of scope.now.start.now trail.now.items (option_map (λ n. n.now) handed.entry)) (source_view source.now)) }
    ensures told { OnOk result (IsTold (T.relations texts.old) (document_seen scope.now.document.now) scope.now.depth levels (tree_at (T.relations texts.old) (document_seen scope.now.document.now) scope.now.depth (suc levels) (spot_of scope.now.start.now trail.now.items (option_map (λ n. n.now) handed.entry)) (source_view source.now)) (kept_view kept.old) (kept_view kept.new)) }
    ensures refused { IfErr result (λ f. Refuses (T.relations texts.old) (document_seen scope.now.document.now) scope.now.depth levels (T.faults texts.old) (T.faults texts.new) (tree_at (T.relations texts.old) (document_seen scope.now.document.now) scope.now.depth (suc levels) (spot_of scope.now.start.now trail.now.items (option_map (λ n. n.now) handed.entry)) (source_view source.now)) (fault_view f)) }
    ensures keeps { T.relations texts.new ≡ T.relations texts.old }
    ensures counts { T.faults texts.old ≤ T.faults texts.new }
{
    let merge = next_merge(kept)?;
    match &merge.end {
        MergeEnd::Stands(standing) => {
            keep_notes(scope, trail, finding, kept)?;
            keep_merge_notes(scope, trail, &merge.notes, kept)?;
            let name = name_of_standing(handed, source, &standing.schema);
            let tree = convert_in_place(
                scope,
                texts,
                kept,
                trail,
                levels,
                name,
                source,
                &finding.row,
                standing,
            )?;
            Ok(tree)
        }
        MergeEnd::Deep(_) => Err(refused_merge(scope, trail, &merge.end)),
        MergeEnd::Unsupported(_) => Err(refused_merge(scope, trail, &merge.end)),
    }
}

// A boolean that was made is named as the written schema.
fn name_of_standing<'d>(
    handed: Option<&'d str>,
    source: &Source<'d>,
    schema: &Schema,
) -> Option<&'d str>
    ensures { option_map (λ n. n.now) result ≡ handed_on (option_map (λ n. n.now) handed.entry) (source_view source.now) (schema_view schema.now) }
{
    match schema {
        Schema::Bool(_) => Some(named(handed, source)),
        Schema::Object(_) => handed,
    }
}

// What stands in the place of a schema whose row merges; a default of that schema is kept before what it states itself.
#[cycle(convert)]
fn convert_in_place<'d, T: Texts>(
    scope: &Scope<'d, '_>,
    texts: &mut T,
    kept: &mut Kept<'d, '_, '_>,
    trail: &Vec<Steps<'d>>,
    levels: u32,
    handed: Option<&'d str>,
    source: &Source<'d>,
    row: &Row<'d>,
    standing: &'d Standing,
) -> Result<Tree<'d>, Fault>
    requires { Begins (kept_view kept.old).merges (merges_in (tree_at (T.relations texts.old) (document_seen scope.now.document.now) scope.now.depth levels (spot_of standing.now.start [] (option_map (λ n. n.now) handed)) (schema_view standing.now.schema))) }
    ensures entry { IfOk result (λ t. tree_view t ≡ entry_at (T.relations texts.old) (document_seen scope.now.document.now) scope.now.depth levels (spot_of standing.now.start [] (option_map (λ n. n.now) handed.entry)) (schema_view standing.now.schema)) }
    ensures told { IfOk result (λ t. IsToldOf (T.relations texts.old) (document_seen scope.now.document.now) scope.now.depth levels (path_by scope.now.start.now trail.now.items) (source_view source.now) (row_view (T.relations texts.old) row.now) (tree_view t) (tree_at (T.relations texts.old) (document_seen scope.now.document.now) scope.now.depth levels (spot_of standing.now.start [] (option_map (λ n. n.now) handed.entry)) (schema_view standing.now.schema)) (kept_view kept.old) (kept_view kept.new)) }
    ensures refused { IfErr result (λ f. RefusesOf (T.relations texts.old) (document_seen scope.now.document.now) scope.now.depth levels (path_by scope.now.start.now trail.now.items) (T.faults texts.old) (T.faults texts.new) (tree_at (T.relations texts.old) (document_seen scope.now.document.now) scope.now.depth levels (spot_of standing.now.start [] (option_map (λ n. n.now) handed.entry)) (schema_view standing.now.schema)) (fault_view f)) }
    ensures keeps { T.relations texts.new ≡ T.relations texts.old }
    ensures counts { T.faults texts.old ≤ T.faults texts.new }
{
    let had = kept.values.unread.is_some();
    let tree = convert_standing(scope, texts, kept, levels, handed, standing)?;
    keep_unless(had, scope, texts, kept, trail, source, row, &tree)?;
    Ok(tree)
}

#[cycle(convert)]
fn convert_standing<'d, T: Texts>(
    scope: &Scope<'d, '_>,
    texts: &mut T,
    kept: &mut Kept<'d, '_, '_>,
    levels: u32,
    handed: Option<&'d str>,
    standing: &'d Standing,
) -> Result<Tree<'d>, Fault>
    requires { Begins (kept_view kept.old).merges (merges_in (tree_at (T.relations texts.old) (document_seen scope.now.document.now) scope.now.depth levels (spot_of standing.now.start [] (option_map (λ n. n.now) handed)) (schema_view standing.now.schema))) }
    ensures entry { IfOk result (λ t. tree_view t ≡ entry_at (T.relations texts.old) (document_seen scope.now.document.now) scope.now.depth levels (spot_of standing.now.start [] (option_map (λ n. n.now) handed.entry)) (schema_view standing.now.schema)) }
    ensures told { OnOk result (IsTold (T.relations texts.old) (document_seen scope.now.document.now) scope.now.depth levels (tree_at (T.relations texts.old) (document_seen scope.now.document.now) scope.now.depth levels (spot_of standing.now.start [] (option_map (λ n. n.now) handed.entry)) (schema_view standing.now.schema)) (kept_view kept.old) (kept_view kept.new)) }
    ensures refused { IfErr result (λ f. Refuses (T.relations texts.old) (document_seen scope.now.document.now) scope.now.depth levels (T.faults texts.old) (T.faults texts.new) (tree_at (T.relations texts.old) (document_seen scope.now.document.now) scope.now.depth levels (spot_of standing.now.start [] (option_map (λ n. n.now) handed.entry)) (schema_view standing.now.schema)) (fault_view f)) }
    ensures keeps { T.relations texts.new ≡ T.relations texts.old }
    ensures counts { T.faults texts.old ≤ T.faults texts.new }
{
    let inside = Scope {
        alloc: scope.alloc,
        document: scope.document,
        depth: scope.depth,
        start: &standing.start,
    };
    let trail = Vec::new(scope.alloc);
    let source = Source::Written(&standing.schema);
    let tree = convert(&inside, texts, kept, &trail, levels, handed, &source)?;
    Ok(tree)
}
