//! The items that references lead to.
ghost use Rattle.std.specs.Prelude.{◌≡◌, ◌≤◌, ◌++◌, ℕ, [], ◌∷◌, true, None, Some, IfErr, IfOk, OnOk, map, option_map};
ghost use Rattle.schema_defs.specs.Schema.{Document as DocumentOf};
ghost use Rattle.schema_defs.specs.Texts.{Relations};
ghost use Rattle.schema_tree.specs.Document.{view as document_seen};
ghost use Rattle.schema_tree.specs.Fault.{fault_view, memory};
ghost use Rattle.convert_defs.specs.Convert.{as_item as as_item_of};
ghost use Rattle.convert_defs.specs.RootReference.{refers_to_root as refers_to_root_of};
ghost use Rattle.convert_walks.specs.Tree.{root_targets};
ghost use Rattle.entry_defs.specs.Entry.{the_root};
ghost use Rattle.tree_types.specs.View.{table_view, target_entry, tree_view};
ghost use Rattle.note_order.specs.Notes.{notes_view};
ghost use Rattle.convert_document.specs.Merges.{merges_in, merges_view};
ghost use Rattle.convert_document.specs.Keeping.{kept_view, unread_view};
ghost use Rattle.convert_document.specs.Told.{AreFine, Begins, IsTold, Refuses};
ghost use Rattle.convert_document.specs.Unread.{first_kept, unread_in};
ghost use Rattle.typify_convert.specs.Gathered.{MergesAll};
ghost use Rattle.typify_convert.specs.Kept.{FoundOf};
ghost use Rattle.typify_convert.specs.Space.{History, Keeps};
ghost use Rattle.history_laws.specs.Added.{target_nodes, targets_table, used_root_tree};
ghost use Rattle.typify_convert.specs.Added.{with_targets};

use crate::gather::gathered;
use crate::keeping::{Held, take_notes, take_unread};
use crate::plan::plan_of;
use convert_document::{
    Kept, Merge, PlacedNote, Unread, definition_targets, nothing_kept, root_name, root_tree,
};
use root_references::refers_to_root;
use schema_tree::{Document, Fault, Texts};
use std::alloc::{AllocError, Global};
use tree_parts::as_item;
use tree_types::{Target, Tree, TreeTable};

/// The items, with their notes, and the first stated value that isn't read.
#[derive(Drop)]
struct Targets<'d> {
    table: TreeTable<'d>,
    notes: Vec<PlacedNote>,
    unread: Option<Unread<'d>>,
}

// The items that references lead to, and nothing that uses them. It takes no memory.
fn alone<'d>(alloc: Global, targets: Vec<(Target, Tree<'d>)>) -> TreeTable<'d>
    ensures { table_view result ≡ record { targets = map target_entry targets.entry.items; trees = [] } }
{
    TreeTable {
        targets,
        trees: Vec::new(alloc),
    }
}

fn push_item<'d>(
    alloc: Global,
    name: &'d str,
    targets: Vec<(Target, Tree<'d>)>,
    tree: Tree<'d>,
) -> Result<Vec<(Target, Tree<'d>)>, AllocError>
    ensures { IfOk result (λ v. map target_entry v.items ≡ map target_entry targets.entry.items ++ record { target = the_root; led_to = as_item_of name.now (tree_view tree.entry) } ∷ []) }
{
    let item = as_item(alloc, name, tree)?;
    let mut all = targets;
    all.push((Target::Root, item))?;
    Ok(all)
}

fn with_item<'d>(
    alloc: Global,
    name: &'d str,
    targets: Vec<(Target, Tree<'d>)>,
    tree: Tree<'d>,
) -> Result<Vec<(Target, Tree<'d>)>, Fault>
    ensures targets { IfOk result (λ v. map target_entry v.items ≡ map target_entry targets.entry.items ++ record { target = the_root; led_to = as_item_of name.now (tree_view tree.entry) } ∷ []) }
    ensures memory { IfErr result (λ f. fault_view f ≡ memory) }
{
    match push_item(alloc, name, targets, tree) {
        Ok(all) => Ok(all),
        Err(_) => Err(Fault::Memory),
    }
}

// With the root as an item.
fn with_used_root<'d, T: Texts>(
    alloc: Global,
    document: &'d Document,
    depth: u32,
    levels: u32,
    texts: &mut T,
    kept: &mut Kept<'d, '_, '_>,
    targets: Vec<(Target, Tree<'d>)>,
) -> Result<Vec<(Target, Tree<'d>)>, Fault>
    requires { Begins (kept_view kept.old).merges (merges_in (used_root_tree (T.relations texts.old) (document_seen document.now) depth levels true)) }
    ensures targets { IfOk result (λ v. map target_entry v.items ≡ map target_entry targets.entry.items ++ root_targets (T.relations texts.old) (document_seen document.now) depth levels true) }
    ensures told { OnOk result (IsTold (T.relations texts.old) (document_seen document.now) depth levels (used_root_tree (T.relations texts.old) (document_seen document.now) depth levels true) (kept_view kept.old) (kept_view kept.new)) }
    ensures refused { IfErr result (λ f. Refuses (T.relations texts.old) (document_seen document.now) depth levels (T.faults texts.old) (T.faults texts.new) (used_root_tree (T.relations texts.old) (document_seen document.now) depth levels true) (fault_view f)) }
    ensures keeps { T.relations texts.new ≡ T.relations texts.old }
    ensures counts { T.faults texts.old ≤ T.faults texts.new }
{
    let tree = root_tree(alloc, document, depth, levels, texts, kept)?;
    let name = root_name(document.root());
    let all = with_item(alloc, name, targets, tree)?;
    Ok(all)
}

// With the root, where some reference leads to it.
fn with_root<'d, T: Texts>(
    alloc: Global,
    document: &'d Document,
    depth: u32,
    levels: u32,
    texts: &mut T,
    kept: &mut Kept<'d, '_, '_>,
    targets: Vec<(Target, Tree<'d>)>,
) -> Result<Vec<(Target, Tree<'d>)>, Fault>
    requires { Begins (kept_view kept.old).merges (merges_in (used_root_tree (T.relations texts.old) (document_seen document.now) depth levels (refers_to_root_of (document_seen document.now)))) }
    ensures targets { IfOk result (λ v. map target_entry v.items ≡ map target_entry targets.entry.items ++ root_targets (T.relations texts.old) (document_seen document.now) depth levels (refers_to_root_of (document_seen document.now))) }
    ensures told { OnOk result (IsTold (T.relations texts.old) (document_seen document.now) depth levels (used_root_tree (T.relations texts.old) (document_seen document.now) depth levels (refers_to_root_of (document_seen document.now))) (kept_view kept.old) (kept_view kept.new)) }
    ensures refused { IfErr result (λ f. Refuses (T.relations texts.old) (document_seen document.now) depth levels (T.faults texts.old) (T.faults texts.new) (used_root_tree (T.relations texts.old) (document_seen document.now) depth levels (refers_to_root_of (document_seen document.now))) (fault_view f)) }
    ensures keeps { T.relations texts.new ≡ T.relations texts.old }
    ensures counts { T.faults texts.old ≤ T.faults texts.new }
{
    if refers_to_root(document) {
        let all = with_used_root(alloc, document, depth, levels, texts, kept, targets)?;
        return Ok(all);
    }
    Ok(targets)
}

// The items, with what isn't kept in them added to what was kept.
fn targets_with<'d, T: Texts>(
    alloc: Global,
    document: &'d Document,
    depth: u32,
    levels: u32,
    texts: &mut T,
    kept: &mut Kept<'d, '_, '_>,
) -> Result<TreeTable<'d>, Fault>
    requires { Begins (kept_view kept.old).merges (merges_in (target_nodes (T.relations texts.old) (document_seen document.now) depth levels)) }
    ensures table { IfOk result (λ t. table_view t ≡ targets_table (T.relations texts.old) (document_seen document.now) depth levels) }
    ensures told { OnOk result (IsTold (T.relations texts.old) (document_seen document.now) depth levels (target_nodes (T.relations texts.old) (document_seen document.now) depth levels) (kept_view kept.old) (kept_view kept.new)) }
    ensures refused { IfErr result (λ f. Refuses (T.relations texts.old) (document_seen document.now) depth levels (T.faults texts.old) (T.faults texts.new) (target_nodes (T.relations texts.old) (document_seen document.now) depth levels) (fault_view f)) }
    ensures keeps { T.relations texts.new ≡ T.relations texts.old }
    ensures counts { T.faults texts.old ≤ T.faults texts.new }
{
    let definitions = definition_targets(alloc, document, depth, levels, texts, kept)?;
    let targets = with_root(alloc, document, depth, levels, texts, kept, definitions)?;
    let table = alone(alloc, targets);
    Ok(table)
}

// The items, where stated values are asked by a table.
fn targets_by<'d, T: Texts>(
    alloc: Global,
    document: &'d Document,
    merges: &'d Vec<Merge>,
    depth: u32,
    levels: u32,
    texts: &mut T,
    known: Option<&TreeTable<'_>>,
) -> Result<Targets<'d>, Fault>
    requires { MergesAll (document_seen document.now) depth levels (merges_view merges.now.items) }
    ensures table { IfOk result (λ c. table_view c.table ≡ targets_table (T.relations texts.old) (document_seen document.now) depth levels) }
    ensures found { IfOk result (λ c. FoundOf (T.relations texts.old) (document_seen document.now) depth levels (option_map (λ t. table_view t.now) known.entry) (target_nodes (T.relations texts.old) (document_seen document.now) depth levels) (notes_view c.notes.items) (option_map unread_view c.unread)) }
    ensures refused { IfErr result (λ f. Refuses (T.relations texts.old) (document_seen document.now) depth levels (T.faults texts.old) (T.faults texts.new) (target_nodes (T.relations texts.old) (document_seen document.now) depth levels) (fault_view f)) }
    ensures keeps { T.relations texts.new ≡ T.relations texts.old }
    ensures counts { T.faults texts.old ≤ T.faults texts.new }
{
    let mut kept = nothing_kept(alloc, known, merges);
    let table = targets_with(alloc, document, depth, levels, texts, &mut kept)?;
    Ok(Targets {
        table,
        notes: kept.notes,
        unread: kept.values.unread,
    })
}

/// The items as they are converted, from what the rows of the document merge.
pub(crate) fn items_of<'d, T: Texts>(
    alloc: Global,
    document: &'d Document,
    merges: &'d Vec<Merge>,
    depth: u32,
    levels: u32,
    texts: &mut T,
) -> Result<TreeTable<'d>, Fault>
    requires { MergesAll (document_seen document.now) depth levels (merges_view merges.now.items) }
    ensures table { IfOk result (λ t. table_view t ≡ targets_table (T.relations texts.old) (document_seen document.now) depth levels) }
    ensures refused { IfErr result (λ f. Refuses (T.relations texts.old) (document_seen document.now) depth levels (T.faults texts.old) (T.faults texts.new) (target_nodes (T.relations texts.old) (document_seen document.now) depth levels) (fault_view f)) }
    ensures keeps { T.relations texts.new ≡ T.relations texts.old }
    ensures counts { T.faults texts.old ≤ T.faults texts.new }
{
    let found = targets_by(alloc, document, merges, depth, levels, texts, None)?;
    Ok(found.table)
}

// The first stated value that isn't read by the items, which takes another conversion where some are stated.
fn first_unread<'d, T: Texts>(
    alloc: Global,
    document: &'d Document,
    merges: &'d Vec<Merge>,
    depth: u32,
    levels: u32,
    texts: &mut T,
    table: &TreeTable<'d>,
    stated: &Option<Unread<'d>>,
) -> Result<Option<Unread<'d>>, Fault>
    requires merges { MergesAll (document_seen document.now) depth levels (merges_view merges.now.items) }
    requires stated { option_map unread_view stated.now ≡ first_kept None (unread_in (T.relations texts.old) None (document_seen document.now) (target_nodes (T.relations texts.old) (document_seen document.now) depth levels)) }
    ensures unread { IfOk result (λ o. option_map unread_view o ≡ first_kept None (unread_in (T.relations texts.old) (Some (table_view table.now)) (document_seen document.now) (target_nodes (T.relations texts.old) (document_seen document.now) depth levels))) }
    ensures refused { IfErr result (λ f. Refuses (T.relations texts.old) (document_seen document.now) depth levels (T.faults texts.old) (T.faults texts.new) (target_nodes (T.relations texts.old) (document_seen document.now) depth levels) (fault_view f)) }
    ensures keeps { T.relations texts.new ≡ T.relations texts.old }
    ensures counts { T.faults texts.old ≤ T.faults texts.new }
{
    match stated {
        Some(_) => unread_by_items(alloc, document, merges, depth, levels, texts, table),
        None => Ok(None),
    }
}

fn unread_by_items<'d, T: Texts>(
    alloc: Global,
    document: &'d Document,
    merges: &'d Vec<Merge>,
    depth: u32,
    levels: u32,
    texts: &mut T,
    table: &TreeTable<'d>,
) -> Result<Option<Unread<'d>>, Fault>
    requires { MergesAll (document_seen document.now) depth levels (merges_view merges.now.items) }
    ensures unread { IfOk result (λ o. option_map unread_view o ≡ first_kept None (unread_in (T.relations texts.old) (Some (table_view table.now)) (document_seen document.now) (target_nodes (T.relations texts.old) (document_seen document.now) depth levels))) }
    ensures refused { IfErr result (λ f. Refuses (T.relations texts.old) (document_seen document.now) depth levels (T.faults texts.old) (T.faults texts.new) (target_nodes (T.relations texts.old) (document_seen document.now) depth levels) (fault_view f)) }
    ensures keeps { T.relations texts.new ≡ T.relations texts.old }
    ensures counts { T.faults texts.old ≤ T.faults texts.new }
{
    let found = targets_by(alloc, document, merges, depth, levels, texts, Some(table))?;
    Ok(found.unread)
}

fn collected<'d, T: Texts>(
    alloc: Global,
    document: &'d Document,
    merges: &'d Vec<Merge>,
    depth: u32,
    levels: u32,
    texts: &mut T,
) -> Result<Targets<'d>, Fault>
    requires { MergesAll (document_seen document.now) depth levels (merges_view merges.now.items) }
    ensures table { IfOk result (λ c. table_view c.table ≡ targets_table (T.relations texts.old) (document_seen document.now) depth levels) }
    ensures found { IfOk result (λ c. FoundOf (T.relations texts.old) (document_seen document.now) depth levels (Some (table_view c.table)) (target_nodes (T.relations texts.old) (document_seen document.now) depth levels) (notes_view c.notes.items) (option_map unread_view c.unread)) }
    ensures refused { IfErr result (λ f. Refuses (T.relations texts.old) (document_seen document.now) depth levels (T.faults texts.old) (T.faults texts.new) (target_nodes (T.relations texts.old) (document_seen document.now) depth levels) (fault_view f)) }
    ensures keeps { T.relations texts.new ≡ T.relations texts.old }
    ensures counts { T.faults texts.old ≤ T.faults texts.new }
{
    let found = targets_by(alloc, document, merges, depth, levels, texts, None)?;
    let unread = first_unread(
        alloc,
        document,
        merges,
        depth,
        levels,
        texts,
        &found.table,
        &found.unread,
    )?;
    Ok(Targets {
        table: found.table,
        notes: found.notes,
        unread,
    })
}

fn place_targets<'d>(alloc: Global, held: &mut Held, found: Targets<'d>) -> Result<(), AllocError>
    ensures { OnOk result ((r : Relations) (d : DocumentOf) (most n : ℕ) (h : History) → table_view found.entry.table ≡ targets_table r d most n → FoundOf r d most n (Some (table_view found.entry.table)) (target_nodes r d most n) (notes_view found.entry.notes.items) (option_map unread_view found.entry.unread) → Keeps held.old h → Keeps held.new (with_targets r d most n h)) }
{
    let Targets {
        table,
        notes,
        unread,
    } = found;
    let plan = plan_of(alloc, &table.targets)?;
    held.plan = plan;
    take_notes(&mut held.notes, notes)?;
    take_unread(&mut held.unread, unread)?;
    Ok(())
}

fn hold_targets<'d>(alloc: Global, held: &mut Held, found: Targets<'d>) -> Result<(), Fault>
    ensures held { OnOk result ((r : Relations) (d : DocumentOf) (most n : ℕ) (h : History) → table_view found.entry.table ≡ targets_table r d most n → FoundOf r d most n (Some (table_view found.entry.table)) (target_nodes r d most n) (notes_view found.entry.notes.items) (option_map unread_view found.entry.unread) → Keeps held.old h → Keeps held.new (with_targets r d most n h)) }
    ensures memory { IfErr result (λ f. fault_view f ≡ memory) }
{
    match place_targets(alloc, held, found) {
        Ok(_) => Ok(()),
        Err(_) => Err(Fault::Memory),
    }
}

// What is converted borrows from what was merged, and is placed before that goes.
fn targets_placed<'d, T: Texts>(
    alloc: Global,
    document: &'d Document,
    merges: &'d Vec<Merge>,
    depth: u32,
    levels: u32,
    texts: &mut T,
    held: &mut Held,
) -> Result<(), Fault>
    requires { MergesAll (document_seen document.now) depth levels (merges_view merges.now.items) }
    ensures added { OnOk result ((h : History) → Keeps held.old h → Keeps held.new (with_targets (T.relations texts.old) (document_seen document.now) depth levels h)) }
    ensures fine { OnOk result (AreFine (T.relations texts.old) (document_seen document.now) depth levels (target_nodes (T.relations texts.old) (document_seen document.now) depth levels)) }
    ensures refused { IfErr result (λ f. Refuses (T.relations texts.old) (document_seen document.now) depth levels (T.faults texts.old) (T.faults texts.new) (target_nodes (T.relations texts.old) (document_seen document.now) depth levels) (fault_view f)) }
    ensures keeps { T.relations texts.new ≡ T.relations texts.old }
    ensures counts { T.faults texts.old ≤ T.faults texts.new }
{
    let found = collected(alloc, document, merges, depth, levels, texts)?;
    hold_targets(alloc, held, found)?;
    Ok(())
}

/// The items that references lead to: the definitions in the order of their names, and the root where some `$ref` is `#`.
pub(crate) fn add_targets<T: Texts>(
    alloc: Global,
    document: &Document,
    depth: u32,
    levels: u32,
    texts: &mut T,
    held: &mut Held,
) -> Result<(), Fault>
    ensures added { OnOk result ((h : History) → Keeps held.old h → Keeps held.new (with_targets (T.relations texts.old) (document_seen document.now) depth levels h)) }
    ensures fine { OnOk result (AreFine (T.relations texts.old) (document_seen document.now) depth levels (target_nodes (T.relations texts.old) (document_seen document.now) depth levels)) }
    ensures refused { IfErr result (λ f. Refuses (T.relations texts.old) (document_seen document.now) depth levels (T.faults texts.old) (T.faults texts.new) (target_nodes (T.relations texts.old) (document_seen document.now) depth levels) (fault_view f)) }
    ensures keeps { T.relations texts.new ≡ T.relations texts.old }
    ensures counts { T.faults texts.old ≤ T.faults texts.new }
{
    let merges = gathered(alloc, document, depth, levels)?;
    targets_placed(alloc, document, &merges, depth, levels, texts, held)?;
    Ok(())
}
