//! One more schema.
ghost use Rattle.std.specs.Prelude.{◌≡◌, ◌≤◌, ◌++◌, ℕ, [], List, Some, None, IfErr, IfOk, OnOk, option_map};
ghost use Rattle.schema_defs.specs.Schema.{Document as DocumentOf};
ghost use Rattle.schema_defs.specs.Texts.{Relations};
ghost use Rattle.schema_defs.specs.Children.{schema_at};
ghost use Rattle.schema_types.specs.View.{schema_view};
ghost use Rattle.schema_tree.specs.Document.{view as document_seen};
ghost use Rattle.schema_tree.specs.Fault.{fault_view, memory};
ghost use Rattle.convert_walks.specs.Tree.{Node, entry_at, tree_at as tree_nodes};
ghost use Rattle.entry_types.specs.View.{id_view};
ghost use Rattle.tree_types.specs.View.{table_view, target_view, tree_view};
ghost use Rattle.merged_rows.specs.Starts.{spot_of};
ghost use Rattle.note_order.specs.Notes.{notes_view};
ghost use Rattle.convert_document.specs.Merges.{merges_view};
ghost use Rattle.convert_document.specs.Keeping.{unread_view};
ghost use Rattle.convert_document.specs.Told.{AreFine, Refuses};
ghost use Rattle.convert_document.specs.Unread.{first_kept, unread_in};
ghost use Rattle.typify_convert.specs.Gathered.{MergesAll, MergesFrom};
ghost use Rattle.typify_convert.specs.Kept.{FoundOf};
ghost use Rattle.history_laws.specs.Placing.{next_id, target_id};
ghost use Rattle.typify_convert.specs.Space.{History, Keeps};
ghost use Rattle.history_laws.specs.Added.{target_at, target_nodes, targets_table, wanted_at};
ghost use Rattle.typify_convert.specs.Added.{KeepsMore, added, added_nodes, met_nodes, with_items_asked, with_nodes};

use crate::collect::items_of;
use crate::gather::{gathered, gathered_from, start_of};
use crate::keeping::{Held, take_notes, take_unread};
use crate::plan::place_next;
use crate::target::target_found;
use convert_document::{Merge, PlacedNote, Unread, nothing_kept, root_name, tree_at};
use entry_space::TypeId;
use merged_rows::Start;
use schema_tree::{Document, Fault, Location, Schema, Texts};
use space_trees::led_to;
use std::alloc::{AllocError, Global};
use tree_types::{Target, Tree, TreeTable};

/// The tree of a schema, with its notes, and the first stated value that isn't read.
#[derive(Drop)]
struct Found<'n> {
    tree: Tree<'n>,
    notes: Vec<PlacedNote>,
    unread: Option<Unread<'n>>,
}

// The root has a name of its own; another schema is named by its title.
fn name_by_place<'n>(document: &'n Document, at: &Location) -> Option<&'n str>
    ensures { option_map (λ n. n.now) result ≡ wanted_at (document_seen document.now) at.now None }
{
    match at.steps.split_first() {
        None => Some(root_name(document.root())),
        Some(_) => None,
    }
}

// The name that a schema is converted under, where it isn't its title.
fn name_at<'n>(document: &'n Document, at: &Location, name: Option<&'n str>) -> Option<&'n str>
    ensures { option_map (λ n. n.now) result ≡ wanted_at (document_seen document.now) at.now (option_map (λ n. n.now) name.entry) }
{
    match name {
        Some(name) => Some(name),
        None => name_by_place(document, at),
    }
}

// A schema converted, where stated values are asked by a table.
fn found_by<'n, T: Texts>(
    alloc: Global,
    document: &'n Document,
    merges: &'n Vec<Merge>,
    depth: u32,
    levels: u32,
    texts: &mut T,
    known: Option<&TreeTable<'_>>,
    start: &Start,
    wanted: Option<&'n str>,
    schema: &'n Schema,
) -> Result<Found<'n>, Fault>
    requires merges { MergesFrom (document_seen document.now) depth levels start.now (schema_view schema.now) (merges_view merges.now.items) }
    ensures entry { IfOk result (λ c. tree_view c.tree ≡ entry_at (T.relations texts.old) (document_seen document.now) depth levels (spot_of start.now [] (option_map (λ n. n.now) wanted.entry)) (schema_view schema.now)) }
    ensures found { IfOk result (λ c. FoundOf (T.relations texts.old) (document_seen document.now) depth levels (option_map (λ t. table_view t.now) known.entry) (tree_nodes (T.relations texts.old) (document_seen document.now) depth levels (spot_of start.now [] (option_map (λ n. n.now) wanted.entry)) (schema_view schema.now)) (notes_view c.notes.items) (option_map unread_view c.unread)) }
    ensures refused { IfErr result (λ f. Refuses (T.relations texts.old) (document_seen document.now) depth levels (T.faults texts.old) (T.faults texts.new) (tree_nodes (T.relations texts.old) (document_seen document.now) depth levels (spot_of start.now [] (option_map (λ n. n.now) wanted.entry)) (schema_view schema.now)) (fault_view f)) }
    ensures keeps { T.relations texts.new ≡ T.relations texts.old }
    ensures counts { T.faults texts.old ≤ T.faults texts.new }
{
    let mut kept = nothing_kept(alloc, known, merges);
    let tree = tree_at(
        alloc, document, depth, levels, texts, &mut kept, start, wanted, schema,
    )?;
    Ok(Found {
        tree,
        notes: kept.notes,
        unread: kept.values.unread,
    })
}

// The first stated value that isn't read by the items that references lead to, which are made of what was merged for them.
fn unread_by_items<'n, T: Texts>(
    alloc: Global,
    document: &'n Document,
    merges: &'n Vec<Merge>,
    depth: u32,
    levels: u32,
    texts: &mut T,
    below: &Vec<Merge>,
    start: &Start,
    wanted: Option<&'n str>,
    schema: &'n Schema,
) -> Result<Option<Unread<'n>>, Fault>
    requires merges { MergesFrom (document_seen document.now) depth levels start.now (schema_view schema.now) (merges_view merges.now.items) }
    requires below { MergesAll (document_seen document.now) depth levels (merges_view below.now.items) }
    requires fine { AreFine (T.relations texts.old) (document_seen document.now) depth levels (tree_nodes (T.relations texts.old) (document_seen document.now) depth levels (spot_of start.now [] (option_map (λ n. n.now) wanted)) (schema_view schema.now)) }
    ensures unread { IfOk result (λ o. option_map unread_view o ≡ first_kept None (unread_in (T.relations texts.old) (Some (targets_table (T.relations texts.old) (document_seen document.now) depth levels)) (document_seen document.now) (tree_nodes (T.relations texts.old) (document_seen document.now) depth levels (spot_of start.now [] (option_map (λ n. n.now) wanted.entry)) (schema_view schema.now)))) }
    ensures refused { IfErr result (λ f. Refuses (T.relations texts.old) (document_seen document.now) depth levels (T.faults texts.old) (T.faults texts.new) (tree_nodes (T.relations texts.old) (document_seen document.now) depth levels (spot_of start.now [] (option_map (λ n. n.now) wanted.entry)) (schema_view schema.now) ++ target_nodes (T.relations texts.old) (document_seen document.now) depth levels) (fault_view f)) }
    ensures keeps { T.relations texts.new ≡ T.relations texts.old }
    ensures counts { T.faults texts.old ≤ T.faults texts.new }
{
    let table = items_of(alloc, document, below, depth, levels, texts)?;
    let known = Some(&table);
    let found = found_by(
        alloc, document, merges, depth, levels, texts, known, start, wanted, schema,
    )?;
    Ok(found.unread)
}

fn unread_asked<'n, T: Texts>(
    alloc: Global,
    document: &'n Document,
    merges: &'n Vec<Merge>,
    depth: u32,
    levels: u32,
    texts: &mut T,
    start: &Start,
    wanted: Option<&'n str>,
    schema: &'n Schema,
) -> Result<Option<Unread<'n>>, Fault>
    requires merges { MergesFrom (document_seen document.now) depth levels start.now (schema_view schema.now) (merges_view merges.now.items) }
    requires fine { AreFine (T.relations texts.old) (document_seen document.now) depth levels (tree_nodes (T.relations texts.old) (document_seen document.now) depth levels (spot_of start.now [] (option_map (λ n. n.now) wanted)) (schema_view schema.now)) }
    ensures unread { IfOk result (λ o. option_map unread_view o ≡ first_kept None (unread_in (T.relations texts.old) (Some (targets_table (T.relations texts.old) (document_seen document.now) depth levels)) (document_seen document.now) (tree_nodes (T.relations texts.old) (document_seen document.now) depth levels (spot_of start.now [] (option_map (λ n. n.now) wanted.entry)) (schema_view schema.now)))) }
    ensures refused { IfErr result (λ f. Refuses (T.relations texts.old) (document_seen document.now) depth levels (T.faults texts.old) (T.faults texts.new) (tree_nodes (T.relations texts.old) (document_seen document.now) depth levels (spot_of start.now [] (option_map (λ n. n.now) wanted.entry)) (schema_view schema.now) ++ target_nodes (T.relations texts.old) (document_seen document.now) depth levels) (fault_view f)) }
    ensures keeps { T.relations texts.new ≡ T.relations texts.old }
    ensures counts { T.faults texts.old ≤ T.faults texts.new }
{
    let below = gathered(alloc, document, depth, levels)?;
    let unread = unread_by_items(
        alloc, document, merges, depth, levels, texts, &below, start, wanted, schema,
    )?;
    Ok(unread)
}

// Nothing is asked where no value is stated.
fn first_unread<'n, T: Texts>(
    alloc: Global,
    document: &'n Document,
    merges: &'n Vec<Merge>,
    depth: u32,
    levels: u32,
    texts: &mut T,
    stated: &Option<Unread<'n>>,
    start: &Start,
    wanted: Option<&'n str>,
    schema: &'n Schema,
) -> Result<Option<Unread<'n>>, Fault>
    requires merges { MergesFrom (document_seen document.now) depth levels start.now (schema_view schema.now) (merges_view merges.now.items) }
    requires stated { option_map unread_view stated.now ≡ first_kept None (unread_in (T.relations texts.old) None (document_seen document.now) (tree_nodes (T.relations texts.old) (document_seen document.now) depth levels (spot_of start.now [] (option_map (λ n. n.now) wanted)) (schema_view schema.now))) }
    requires fine { AreFine (T.relations texts.old) (document_seen document.now) depth levels (tree_nodes (T.relations texts.old) (document_seen document.now) depth levels (spot_of start.now [] (option_map (λ n. n.now) wanted)) (schema_view schema.now)) }
    ensures unread { IfOk result (λ o. option_map unread_view o ≡ first_kept None (unread_in (T.relations texts.old) (Some (targets_table (T.relations texts.old) (document_seen document.now) depth levels)) (document_seen document.now) (tree_nodes (T.relations texts.old) (document_seen document.now) depth levels (spot_of start.now [] (option_map (λ n. n.now) wanted.entry)) (schema_view schema.now)))) }
    ensures refused { IfErr result (λ f. Refuses (T.relations texts.old) (document_seen document.now) depth levels (T.faults texts.old) (T.faults texts.new) (with_items_asked (T.relations texts.old) (document_seen document.now) depth levels (tree_nodes (T.relations texts.old) (document_seen document.now) depth levels (spot_of start.now [] (option_map (λ n. n.now) wanted.entry)) (schema_view schema.now))) (fault_view f)) }
    ensures keeps { T.relations texts.new ≡ T.relations texts.old }
    ensures counts { T.faults texts.old ≤ T.faults texts.new }
{
    match stated {
        Some(_) => unread_asked(
            alloc, document, merges, depth, levels, texts, start, wanted, schema,
        ),
        None => Ok(None),
    }
}

// A schema converted, where stated values are asked by the items that references lead to.
fn found_at<'n, T: Texts>(
    alloc: Global,
    document: &'n Document,
    merges: &'n Vec<Merge>,
    depth: u32,
    levels: u32,
    texts: &mut T,
    start: &Start,
    wanted: Option<&'n str>,
    schema: &'n Schema,
) -> Result<Found<'n>, Fault>
    requires merges { MergesFrom (document_seen document.now) depth levels start.now (schema_view schema.now) (merges_view merges.now.items) }
    ensures entry { IfOk result (λ c. tree_view c.tree ≡ entry_at (T.relations texts.old) (document_seen document.now) depth levels (spot_of start.now [] (option_map (λ n. n.now) wanted.entry)) (schema_view schema.now)) }
    ensures found { IfOk result (λ c. FoundOf (T.relations texts.old) (document_seen document.now) depth levels (Some (targets_table (T.relations texts.old) (document_seen document.now) depth levels)) (tree_nodes (T.relations texts.old) (document_seen document.now) depth levels (spot_of start.now [] (option_map (λ n. n.now) wanted.entry)) (schema_view schema.now)) (notes_view c.notes.items) (option_map unread_view c.unread)) }
    ensures refused { IfErr result (λ f. Refuses (T.relations texts.old) (document_seen document.now) depth levels (T.faults texts.old) (T.faults texts.new) (with_items_asked (T.relations texts.old) (document_seen document.now) depth levels (tree_nodes (T.relations texts.old) (document_seen document.now) depth levels (spot_of start.now [] (option_map (λ n. n.now) wanted.entry)) (schema_view schema.now))) (fault_view f)) }
    ensures keeps { T.relations texts.new ≡ T.relations texts.old }
    ensures counts { T.faults texts.old ≤ T.faults texts.new }
{
    let found = found_by(
        alloc, document, merges, depth, levels, texts, None, start, wanted, schema,
    )?;
    let unread = first_unread(
        alloc,
        document,
        merges,
        depth,
        levels,
        texts,
        &found.unread,
        start,
        wanted,
        schema,
    )?;
    Ok(Found {
        tree: found.tree,
        notes: found.notes,
        unread,
    })
}

// The tree comes to the space, and what isn't kept of it behind what wasn't before.
fn place(alloc: Global, held: &mut Held, found: Found<'_>) -> Result<TypeId, AllocError>
    ensures { IfOk result (λ i. (r : Relations) (d : DocumentOf) (most n : ℕ) (ts : List Node) (h : History) → FoundOf r d most n (Some (targets_table r d most n)) ts (notes_view found.entry.notes.items) (option_map unread_view found.entry.unread) → Keeps held.old h → KeepsMore held.new (id_view i) (with_nodes r d most n (tree_view found.entry.tree) ts h, next_id h.table (tree_view found.entry.tree))) }
{
    let Found {
        tree,
        notes,
        unread,
    } = found;
    let id = place_next(&mut held.plan, alloc, &tree)?;
    take_notes(&mut held.notes, notes)?;
    take_unread(&mut held.unread, unread)?;
    Ok(id)
}

fn hold(alloc: Global, held: &mut Held, found: Found<'_>) -> Result<TypeId, Fault>
    ensures held { IfOk result (λ i. (r : Relations) (d : DocumentOf) (most n : ℕ) (ts : List Node) (h : History) → FoundOf r d most n (Some (targets_table r d most n)) ts (notes_view found.entry.notes.items) (option_map unread_view found.entry.unread) → Keeps held.old h → KeepsMore held.new (id_view i) (with_nodes r d most n (tree_view found.entry.tree) ts h, next_id h.table (tree_view found.entry.tree))) }
    ensures memory { IfErr result (λ f. fault_view f ≡ memory) }
{
    match place(alloc, held, found) {
        Ok(id) => Ok(id),
        Err(_) => Err(Fault::Memory),
    }
}

#[tactic(auto, using(crate::proofs::Holding::led_so))]
fn led_id(held: &Held, target: &Target) -> Result<TypeId, Fault>
    ensures id { IfOk result (λ i. (h : History) → Keeps held.now h → id_view i ≡ target_id h.table (target_view target.now)) }
    ensures memory { IfErr result (λ f. fault_view f ≡ memory) }
{
    match led_to(&held.plan.led, target) {
        Some(id) => Ok(id),
        None => Err(Fault::Memory),
    }
}

fn found_schema<'n>(document: &'n Document, at: &Location) -> Result<&'n Schema, Fault>
    ensures schema { IfOk result (λ s. Some (schema_view s.now) ≡ schema_at (document_seen document.now) at.now) }
    ensures memory { IfErr result (λ f. fault_view f ≡ memory) }
{
    match document.schema_at(at) {
        Some(schema) => Ok(schema),
        None => Err(Fault::Memory),
    }
}

// What is converted borrows from what was merged, and is placed before that goes.
fn placed<'n, T: Texts>(
    alloc: Global,
    document: &'n Document,
    merges: &'n Vec<Merge>,
    depth: u32,
    levels: u32,
    texts: &mut T,
    held: &mut Held,
    start: &Start,
    wanted: Option<&'n str>,
    schema: &'n Schema,
) -> Result<TypeId, Fault>
    requires merges { MergesFrom (document_seen document.now) depth levels start.now (schema_view schema.now) (merges_view merges.now.items) }
    ensures added { IfOk result (λ i. (h : History) → Keeps held.old h → KeepsMore held.new (id_view i) (with_nodes (T.relations texts.old) (document_seen document.now) depth levels (entry_at (T.relations texts.old) (document_seen document.now) depth levels (spot_of start.now [] (option_map (λ n. n.now) wanted.entry)) (schema_view schema.now)) (tree_nodes (T.relations texts.old) (document_seen document.now) depth levels (spot_of start.now [] (option_map (λ n. n.now) wanted.entry)) (schema_view schema.now)) h, next_id h.table (entry_at (T.relations texts.old) (document_seen document.now) depth levels (spot_of start.now [] (option_map (λ n. n.now) wanted.entry)) (schema_view schema.now)))) }
    ensures fine { OnOk result (AreFine (T.relations texts.old) (document_seen document.now) depth levels (tree_nodes (T.relations texts.old) (document_seen document.now) depth levels (spot_of start.now [] (option_map (λ n. n.now) wanted.entry)) (schema_view schema.now))) }
    ensures refused { IfErr result (λ f. Refuses (T.relations texts.old) (document_seen document.now) depth levels (T.faults texts.old) (T.faults texts.new) (with_items_asked (T.relations texts.old) (document_seen document.now) depth levels (tree_nodes (T.relations texts.old) (document_seen document.now) depth levels (spot_of start.now [] (option_map (λ n. n.now) wanted.entry)) (schema_view schema.now))) (fault_view f)) }
    ensures keeps { T.relations texts.new ≡ T.relations texts.old }
    ensures counts { T.faults texts.old ≤ T.faults texts.new }
{
    let found = found_at(
        alloc, document, merges, depth, levels, texts, start, wanted, schema,
    )?;
    let id = hold(alloc, held, found)?;
    Ok(id)
}

// A schema without an item of its own.
fn convert_schema<T: Texts>(
    alloc: Global,
    document: &Document,
    depth: u32,
    levels: u32,
    texts: &mut T,
    held: &mut Held,
    at: &Location,
    name: Option<&str>,
) -> Result<TypeId, Fault>
    requires { target_at (document_seen document.now) at.now ≡ None }
    ensures added { IfOk result (λ i. (h : History) → Keeps held.old h → KeepsMore held.new (id_view i) (added (T.relations texts.old) (document_seen document.now) depth levels at.now (option_map (λ n. n.now) name.entry) h)) }
    ensures fine { OnOk result (AreFine (T.relations texts.old) (document_seen document.now) depth levels (added_nodes (T.relations texts.old) (document_seen document.now) depth levels at.now (option_map (λ n. n.now) name.entry))) }
    ensures refused { IfErr result (λ f. Refuses (T.relations texts.old) (document_seen document.now) depth levels (T.faults texts.old) (T.faults texts.new) (met_nodes (T.relations texts.old) (document_seen document.now) depth levels at.now (option_map (λ n. n.now) name.entry)) (fault_view f)) }
    ensures keeps { T.relations texts.new ≡ T.relations texts.old }
    ensures counts { T.faults texts.old ≤ T.faults texts.new }
{
    let schema = found_schema(document, at)?;
    let start = start_of(alloc, at)?;
    let merges = gathered_from(alloc, document, depth, levels, &start, schema)?;
    let wanted = name_at(document, at, name);
    let id = placed(
        alloc, document, &merges, depth, levels, texts, held, &start, wanted, schema,
    )?;
    Ok(id)
}

/// One more schema, and its id. Nothing is converted where it has an item of its own.
pub(crate) fn add_schema<T: Texts>(
    alloc: Global,
    document: &Document,
    depth: u32,
    levels: u32,
    texts: &mut T,
    held: &mut Held,
    at: &Location,
    name: Option<&str>,
) -> Result<TypeId, Fault>
    ensures added { IfOk result (λ i. (h : History) → Keeps held.old h → KeepsMore held.new (id_view i) (added (T.relations texts.old) (document_seen document.now) depth levels at.now (option_map (λ n. n.now) name.entry) h)) }
    ensures fine { OnOk result (AreFine (T.relations texts.old) (document_seen document.now) depth levels (added_nodes (T.relations texts.old) (document_seen document.now) depth levels at.now (option_map (λ n. n.now) name.entry))) }
    ensures refused { IfErr result (λ f. Refuses (T.relations texts.old) (document_seen document.now) depth levels (T.faults texts.old) (T.faults texts.new) (met_nodes (T.relations texts.old) (document_seen document.now) depth levels at.now (option_map (λ n. n.now) name.entry)) (fault_view f)) }
    ensures keeps { T.relations texts.new ≡ T.relations texts.old }
    ensures counts { T.faults texts.old ≤ T.faults texts.new }
{
    let target = target_found(alloc, document, at)?;
    match target {
        Some(target) => {
            let id = led_id(held, &target)?;
            Ok(id)
        }
        None => {
            let id = convert_schema(alloc, document, depth, levels, texts, held, at, name)?;
            Ok(id)
        }
    }
}
